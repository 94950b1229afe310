//! Peers, made of their settings, entries and criteria.
ghost use Rattle.std.specs.Prelude.{◌≡◌, IfOk, List, MatchResult};
ghost use Rattle.std.specs.Cmp.Lexicographic.{slice_cmp};
ghost use Rattle.std.specs.Ordering.{nat_cmp};
ghost use Rattle.vet_base.specs.Items.{SameItems};
ghost use Rattle.vet_base.specs.Keyed.{IsByKey};
ghost use Rattle.vet_entries.specs.HeldPeer.{peer_name};
ghost use Rattle.vet_entries.specs.Numbered.{AreByNumber};
ghost use Rattle.vet_entries.specs.declared.facts.HeldEntry.{HeldEntry as EntryValue};
ghost use Rattle.vet_entries.specs.declared.held_peer.HeldPeer.{HeldPeer as PeerValue};
ghost use Rattle.vet_item_rows.specs.ReadBack.{EachStandsFor, IsReadBack};
ghost use Rattle.vet_item_rows.specs.ReadPeers.{ArePartsOf, IsGroupOf};

use crate::read::criteria::SourcedCriterion;
use crate::read::gathered::{Group, WithKey, gather};
use crate::read::read_error::ReadError;
use crate::read::tables::{criteria_in, definitions_of};
use std::alloc::{AllocError, Global};
use vet_base::keyed::Keyed;
use vet_base::name::Name;
use vet_entries::facts::HeldEntry;
use vet_entries::held_peer::HeldPeer;
use vet_entries::holding::Holding;
use vet_entries::peer_settings::PeerSettings;

/// The peers of these settings, entries and criteria, in the order of their names. What is given may be in any order,
/// and may repeat.
pub(crate) fn peers_of(
    alloc: Global,
    settings: Vec<PeerSettings>,
    entries: Vec<WithKey<Name, HeldEntry>>,
    criteria: Vec<WithKey<Name, SourcedCriterion>>,
) -> Result<Vec<HeldPeer>, ReadError>
    ensures by_name { IfOk result (λ peers. IsByKey (slice_cmp nat_cmp) peer_name peers.items) }
    ensures back { (peers : List PeerValue) → ArePartsOf settings.items entries.items criteria.items peers
        → MatchResult result (λ held. held.items ≡ peers) (λ e. e ≡ ReadError.NoMemory) }
{
    let settings = Keyed::of(alloc, settings)?.into_items();
    let groups = gather(alloc, settings, entries)?;
    let groups = gather(alloc, groups, criteria)?;
    let peers = held_peers(alloc, groups)?;
    Ok(Keyed::of(alloc, peers)?.into_items())
}

/// Entries in the order of their numbers, each once. Fails only if memory runs out.
pub(crate) fn in_order(alloc: Global, entries: Vec<HeldEntry>) -> Result<Vec<HeldEntry>, AllocError>
    ensures by_number { IfOk result (λ sorted. AreByNumber sorted.items) }
    ensures back { IfOk result (λ sorted. (held : List EntryValue) → AreByNumber held → SameItems entries.items held
        → sorted.items ≡ held) }
{
    Ok(Keyed::of(alloc, entries)?.into_items())
}

// The peers, each of its group.
fn held_peers(
    alloc: Global,
    groups: Vec<Group<Group<PeerSettings, HeldEntry>, SourcedCriterion>>,
) -> Result<Vec<HeldPeer>, ReadError>
    ensures { (peers : List PeerValue) → EachStandsFor IsGroupOf groups.items peers
        → MatchResult result (λ held. held.items ≡ peers) (λ e. e ≡ ReadError.NoMemory) }
{
    let mut peers = Vec::new(alloc);
    'groups: for group in groups {
        peers.push(held_peer(alloc, group)?)?;
    }
    Ok(peers)
}

// The peer of its settings, its entries and its criteria.
fn held_peer(
    alloc: Global,
    group: Group<Group<PeerSettings, HeldEntry>, SourcedCriterion>,
) -> Result<HeldPeer, ReadError>
    ensures { IsReadBack IsGroupOf group result }
{
    let (group, criteria) = group.into_parts();
    let (settings, entries) = group.into_parts();
    let definitions = definitions_of(alloc, criteria_in(alloc, criteria)?)?;
    let content = Holding::of(alloc, definitions, in_order(alloc, entries)?)?;
    Ok(HeldPeer { settings, content })
}
