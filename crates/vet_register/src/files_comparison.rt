//! How the entries of three files compare with those that are held.
ghost use Rattle.std.specs.List.{All, sum_by};
ghost use Rattle.std.specs.Prelude.{◌≡◌, ◌<◌, ◌+◌, ◌^◌, IfErr, IfOk, map};
ghost use Rattle.vet_entries.specs.Facts.{Facts};
ghost use Rattle.vet_entries.specs.HeldPeer.{holding_or_none, peer_of};
ghost use Rattle.vet_entries.specs.Holding.{no_holding};
ghost use Rattle.vet_entries.specs.Import.{ComparisonValue, compared_own};
ghost use Rattle.vet_entries.specs.declared.entry.Source.TheVariants.{Own, Peer};
ghost use Rattle.vet_entries.specs.declared.peer_settings.PeerSettings.{PeerSettings};
ghost use Rattle.vet_files.specs.FilesContent.{content_for, no_content};
ghost use Rattle.vet_register.specs.Replacing.{compared_peer, held_of_peer, new_of_files};
ghost use Rattle.vet_register.specs.ReplacingFound.{IsCompared};

use std::alloc::Global;
use vet_base::name::Name;
use vet_base::refusal::Refusal;
use vet_entries::facts::EntryFacts;
use vet_entries::holding::Holding;
use vet_entries::import::{Comparison, compare, compare_own};
use vet_entries::peer_content::PeerContent;
use vet_files::files_content::FilesContent;

/// How the own entries of three files compare with those held, and how the content of each peer of the config file
/// compares with what is held of it.
pub struct FilesComparison {
    pub(crate) own: Comparison,
    pub(crate) peers: Vec<Comparison>,
}

impl Drop for FilesComparison {
    fn drop(self) {
        let FilesComparison { own: _, peers: _ } = self;
    }
}

impl FilesComparison {
    /// The number of entries that are new. Asks that it is below 2^64.
    pub(crate) fn new_count(&self) -> usize
        requires { self.now.own.new_count
            + sum_by (λ (c : ComparisonValue). c.new_count) self.now.peers.items < 2 ^ 64 }
        ensures { result ≡ self.now.own.new_count + sum_by (λ (c : ComparisonValue). c.new_count) self.now.peers.items }
    {
        let peers = self.peers.as_slice();
        let mut count = self.own.new_count();
        'peers: for peer in peers {
            count += peer.new_count();
        }
        count
    }
}

/// How the entries of three files compare with those held. Costs as much as each comparison; copies no entry. Refused:
/// `NoMemory`.
pub(crate) fn compare_files(
    alloc: Global,
    facts: &EntryFacts,
    files: &FilesContent,
) -> Result<FilesComparison, Refusal>
    requires own { All (λ h. h.entry.source ≡ Own) facts.now.content.entries }
    requires peers { (p : PeerSettings)
        → All (λ h. h.entry.source ≡ Peer p.name) (held_of_peer facts.now.content.peers p).entries }
    ensures ok { IfOk result (IsCompared facts.now.content files.now) }
    ensures memory { IfErr result (λ e. e ≡ Refusal.NoMemory) }
{
    let own = compare_own(alloc, facts.entries(), files.entries())?;
    let peers = compare_peers(alloc, facts, files)?;
    Ok(FilesComparison { own, peers })
}

// How the content of each peer of the config file compares with what is held of it.
fn compare_peers(
    alloc: Global,
    facts: &EntryFacts,
    files: &FilesContent,
) -> Result<Vec<Comparison>, Refusal>
    requires { (p : PeerSettings)
        → All (λ h. h.entry.source ≡ Peer p.name) (held_of_peer facts.now.content.peers p).entries }
    ensures ok { IfOk result
        (λ v. v.items ≡ map (compared_peer facts.now.content.peers files.now.contents) files.now.settings) }
    ensures memory { IfErr result (λ e. e ≡ Refusal.NoMemory) }
{
    let nothing = Holding::new(alloc)?;
    let silence = no_content(alloc);
    let peers = files.settings();
    let mut found = Vec::new(alloc);
    'peers: for settings in peers {
        let held = held_of(facts, &settings.name, &nothing);
        let content = content_of(files, &settings.name, &silence);
        found.push(compare(alloc, &settings.name, held, content)?)?;
    }
    Ok(found)
}

/// The holding of the peer of a name, or `nothing` if it isn't held.
pub(crate) fn held_of<'a>(facts: &'a EntryFacts, name: &Name, nothing: &'a Holding) -> &'a Holding
    requires { nothing.now ≡ no_holding }
    ensures { result.now ≡ holding_or_none (peer_of facts.now.content.peers name.now) }
{
    match facts.peer(name) {
        Some(peer) => &peer.content,
        None => nothing,
    }
}

/// The content of the peer of a name in the imports file, or `silence` if it has none.
pub(crate) fn content_of<'a>(
    files: &'a FilesContent,
    name: &Name,
    silence: &'a PeerContent,
) -> &'a PeerContent
    requires { silence.now ≡ no_content }
    ensures { result.now ≡ content_for files.now.contents name.now }
{
    match files.content(name) {
        Some(peer) => &peer.content,
        None => silence,
    }
}

/// An empty content of a peer. Takes no memory.
pub(crate) fn no_content(alloc: Global) -> PeerContent
    ensures { result ≡ no_content }
{
    PeerContent::of(Vec::new(alloc), Vec::new(alloc))
}
