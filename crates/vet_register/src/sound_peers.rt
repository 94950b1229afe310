//! Whether peers that are held are sound.
//!
//! **A peer passes exactly if its entries are sound, and some file that a reader can read gives its criteria and these
//! entries.**
//!
//! No search for such a file is needed: if there is one, then the criteria besides the built-in ones, and the entries
//! as the peer's own, are such a content too. So only these are checked.
ghost use Rattle.std.specs.List.{All};
ghost use Rattle.std.specs.Prelude.{◌≡◌, ◌↔◌, ◌≤◌, IfErr, IfOk, IsTrue, length};
ghost use Rattle.vet_entries.specs.PeerContent.{PeerContentValue, is_peer_kind, may_import};
ghost use Rattle.vet_entries.specs.declared.entry.Source.TheVariants.{Peer};
ghost use Rattle.vet_register.specs.Checks.{Checks};
ghost use Rattle.vet_register.specs.Sound.{AreEntries, IsOfContent, IsSoundPeer};
ghost use Rattle.vet_register.specs.SoundPeers.{AreOfPeer, IsOfPeer};

use crate::sound_entries::check_entries;
use std::alloc::Global;
use vet_base::definitions::Definitions;
use vet_base::further_criteria::further;
use vet_base::limits::MOST_PEER_CRITERIA;
use vet_base::name::Name;
use vet_base::refusal::Refusal;
use vet_entries::entry::Source;
use vet_entries::facts::HeldEntry;
use vet_entries::held_peer::HeldPeer;
use vet_entries::holding::Holding;
use vet_entries::kind::{Audit, Kind};

/// Whether each peer is sound, given the next number. Costs, for each entry, a search among those before it, and copies
/// of the criteria. Refused: `NotARegister` if one is not; `NoMemory`.
pub(crate) fn check_each_peer(alloc: Global, peers: &[HeldPeer], next: u64) -> Result<(), Refusal>
    ensures { Checks (All (IsSoundPeer next) peers.now) result }
{
    'peers: for peer in peers {
        check_peer(alloc, peer, next)?;
    }
    Ok(())
}

// Whether a peer is sound.
fn check_peer(alloc: Global, peer: &HeldPeer, next: u64) -> Result<(), Refusal>
    ensures { Checks (IsSoundPeer next peer.now) result }
{
    let entries = peer.content.entries();
    let source = Source::Peer(peer.settings.name.clone()?);
    check_entries(alloc, &source, entries, next)?;
    check_content(alloc, &peer.settings.name, &peer.content, next)
}

// Whether the holding of a peer is that of some content. Asks that its entries are sound.
fn check_content(alloc: Global, name: &Name, content: &Holding, next: u64) -> Result<(), Refusal>
    requires { AreEntries (Peer name.now) content.now.entries next }
    ensures { Checks ((held : PeerContentValue) × IsOfContent name.now held content.now) result }
{
    if !are_of_peer(content.entries()) {
        return Err(Refusal::NotARegister);
    }
    if !are_defined(alloc, content.definitions())? {
        return Err(Refusal::NotARegister);
    }
    Ok(())
}

// Whether each entry is of a kind that a peer's file gives.
fn are_of_peer(entries: &[HeldEntry]) -> bool
    ensures { IsTrue result ↔ All IsOfPeer entries.now }
{
    entries.iter().all(|held| is_of_peer(&held.entry.kind))
}

// Whether a peer's file gives entries of a kind.
fn is_of_peer(kind: &Kind) -> bool
    ensures { result ≡ is_peer_kind kind.now }
{
    match kind {
        Kind::Full(_, audit) => may_import(audit),
        Kind::Delta(_, audit) => may_import(audit),
        Kind::Violation(_, audit) => may_import(audit),
        Kind::Wildcard(_, _) => true,
        Kind::Trusted(_) => false,
        Kind::Exemption { .. } => false,
    }
}

// Whether others may import an audit.
fn may_import(audit: &Audit) -> bool
    ensures { result ≡ may_import audit.now.importable }
{
    match audit.importable {
        Some(importable) => importable,
        None => true,
    }
}

// Whether a peer's file can define these criteria: that is, whether those besides the built-in ones define the same.
fn are_defined(alloc: Global, definitions: &Definitions) -> Result<bool, Refusal>
    ensures ok { IfOk result (λ defined. IsTrue defined ↔ AreOfPeer definitions.now) }
    ensures memory { IfErr result (λ e. e ≡ Refusal.NoMemory) }
{
    let criteria = further(alloc, definitions)?;
    if criteria.len() > MOST_PEER_CRITERIA {
        return Ok(false);
    }
    let again = Definitions::of(alloc, criteria)?;
    Ok(again == *definitions)
}
