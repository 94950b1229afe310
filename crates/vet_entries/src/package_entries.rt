//! The entries of one package, gathered once for its steps and its violations.
//!
//! **The steps and the violations that these entries give are exactly the lists of the definition.**
ghost use Rattle.std.specs.Prelude.{◌≡◌, ◌<◌, ◌++◌, IfOk, IfErr, OnOk, None, length, slice_index_or};
ghost use Rattle.std.specs.List.{All, flat_map};
ghost use Rattle.std.specs.Option.{option_copied};
ghost use Rattle.vet_base.specs.Closures.{AreClosures};
ghost use Rattle.vet_entries.specs.Condemned.{violations_of};
ghost use Rattle.vet_entries.specs.LocalCriteria.{AreLocal};
ghost use Rattle.vet_entries.specs.PeerWords.{local_criteria};
ghost use Rattle.vet_entries.specs.Step.{entries_of, entry_steps, sourced, steps_of, taken_from};
ghost use Rattle.vet_entries.specs.Taken.{AreEntriesOf, HasPeer, all_sourced, peer_at};
ghost use Rattle.vet_entries.specs.declared.held_peer.HeldPeer.{HeldPeer};

use crate::condemned::{Violation, add_violation};
use crate::facts::{EntryFacts, HeldEntry};
use crate::held_peer::HeldPeer;
use crate::local_criteria::LocalCriteria;
use crate::publisher::Publisher;
use crate::step::{Step, add_kind_steps};
use std::alloc::{AllocError, Global};
use vet_base::closures::Closures;
use vet_base::criteria_set::CriteriaSet;
use vet_base::name::PackageName;
use vet_base::refusal::Refusal;

/// The entries of a package: one's own, then those of each peer that does not exclude it.
pub struct PackageEntries<'a> {
    package: &'a PackageName,
    taken: Vec<Taken<'a>>,
}

impl Drop for PackageEntries<'_> {
    fn drop(self) {
        let PackageEntries {
            package: _,
            taken: _,
        } = self;
    }
}

// An entry of a package: one's own, or of the peer at a place.
#[derive(Clone, Copy)]
struct Taken<'a> {
    peer: Option<usize>,
    held: &'a HeldEntry,
}

impl<'a> PackageEntries<'a> {
    /// The entries of a package. Costs a binary search among the own entries and one among those of each peer, and a
    /// look at each of these entries. Refused: `NoMemory`.
    pub fn of(
        alloc: Global,
        package: &'a PackageName,
        facts: &'a EntryFacts,
    ) -> Result<PackageEntries<'a>, Refusal>
        ensures entries { IfOk result (AreEntriesOf facts.now.content) }
        ensures named { IfOk result (λ e. e.«package».now ≡ «package».now) }
        ensures memory { IfErr result (λ e. e ≡ Refusal.NoMemory) }
    {
        Ok(PackageEntries {
            package,
            taken: entries_of(alloc, package, facts)?,
        })
    }

    /// The violations of the package: one's own, then those of each peer, each in the order of the entries' numbers.
    /// They suffice to judge each version of the package, without another look at its entries (`violations_condemn`).
    /// Costs a look at each entry. Each violation costs a look at each closure and a search for each of its names, as
    /// in `condemned`. Refused: `NoMemory`.
    pub fn violations(
        &self,
        alloc: Global,
        facts: &EntryFacts,
        closures: &Closures,
    ) -> Result<Vec<Violation>, Refusal>
        requires entries { AreEntriesOf facts.now.content self.now }
        requires closures { AreClosures facts.now.content.criteria closures.now }
        ensures ok { IfOk result (λ v. v.items ≡ violations_of facts.now.content self.now.«package».now) }
        ensures memory { IfErr result (λ e. e ≡ Refusal.NoMemory) }
    {
        let mut violations = Vec::new(alloc);
        let criteria = facts.criteria();
        for entry in self.taken.as_slice() {
            let peer = peer_of(entry, facts);
            add_violation(&mut violations, peer, entry.held, criteria, closures)?;
        }
        Ok(violations)
    }

    /// The steps of the package, in the order of the numbers of the entries that give them and, within one entry, in
    /// that of the publisher records. Costs a search for each name of each entry, and a sort of the entries by their
    /// numbers. Costs the closures of a peer's criteria if the peer has an entry among them and its words were not
    /// asked for before. Each window costs a look at each of the package's publisher records. Refused: `NoMemory`.
    pub fn into_steps(
        mut self,
        alloc: Global,
        facts: &EntryFacts,
        local: &mut LocalCriteria,
    ) -> Result<Vec<Step>, Refusal>
        requires entries { AreEntriesOf facts.now.content self }
        requires local { AreLocal facts.now.content local.old }
        ensures ok { IfOk result (λ steps. steps.items ≡ steps_of facts.now.content self.entry.«package».now) }
        ensures memory { IfErr result (λ e. e ≡ Refusal.NoMemory) }
        ensures local { AreLocal facts.now.content local.new }
    {
        self.taken.sort_by_key(|entry| entry.held.number)?;
        let records = facts.records_of(self.package);
        Ok(all_steps(alloc, self.taken.as_slice(), records, facts, local)?)
    }
}

// The entries of a package: one's own, then those of each peer.
fn entries_of<'a>(
    alloc: Global,
    package: &PackageName,
    facts: &'a EntryFacts,
) -> Result<Vec<Taken<'a>>, AllocError>
    ensures entries { IfOk result (λ taken. all_sourced facts.now.content.peers taken.items
        ≡ entries_of facts.now.content «package».now) }
    ensures peers { IfOk result (λ taken. All (HasPeer facts.now.content.peers) taken.items) }
{
    let mut taken = Vec::new(alloc);
    add_own(&mut taken, package, facts)?;
    for place in 0..facts.peers().len() {
        add_of_peer(&mut taken, package, facts, place)?;
    }
    Ok(taken)
}

// Adds one's own entries of a package.
fn add_own<'a>(
    taken: &mut Vec<Taken<'a>>,
    package: &PackageName,
    facts: &'a EntryFacts,
) -> Result<(), AllocError>
    requires { All (HasPeer facts.now.content.peers) taken.old.items }
    ensures entries { OnOk result (all_sourced facts.now.content.peers taken.new.items
        ≡ all_sourced facts.now.content.peers taken.old.items ++ sourced None «package».now facts.now.content.entries) }
    ensures peers { OnOk result (All (HasPeer facts.now.content.peers) taken.new.items) }
{
    let entries = facts.entries();
    for place in facts.places_of(package) {
        taken.push(Taken {
            peer: None,
            held: &entries[*place],
        })?;
    }
    Ok(())
}

// Adds the entries of a package that are taken from the peer at a place.
fn add_of_peer<'a>(
    taken: &mut Vec<Taken<'a>>,
    package: &PackageName,
    facts: &'a EntryFacts,
    at: usize,
) -> Result<(), AllocError>
    requires at { at < length facts.now.content.peers }
    requires peers { All (HasPeer facts.now.content.peers) taken.old.items }
    ensures entries { OnOk result ((d : HeldPeer) → all_sourced facts.now.content.peers taken.new.items
        ≡ all_sourced facts.now.content.peers taken.old.items
        ++ taken_from «package».now (slice_index_or facts.now.content.peers at d)) }
    ensures peers { OnOk result (All (HasPeer facts.now.content.peers) taken.new.items) }
{
    let peer = &facts.peers()[at];
    let entries = peer.content.entries();
    for place in peer.places_taken(package) {
        taken.push(Taken {
            peer: Some(at),
            held: &entries[*place],
        })?;
    }
    Ok(())
}

// The peer of an entry, or `None` for an own one.
fn peer_of<'a>(entry: &Taken<'_>, facts: &'a EntryFacts) -> Option<&'a HeldPeer>
    ensures { option_copied result ≡ peer_at facts.now.content.peers entry.now.peer }
{
    match entry.peer {
        None => None,
        Some(place) => facts.peers().get(place),
    }
}

// The steps of some entries, one after the other.
fn all_steps(
    alloc: Global,
    taken: &[Taken<'_>],
    records: &[Publisher],
    facts: &EntryFacts,
    local: &mut LocalCriteria,
) -> Result<Vec<Step>, AllocError>
    requires local { AreLocal facts.now.content local.old }
    requires peers { All (HasPeer facts.now.content.peers) taken.now }
    ensures steps { IfOk result (λ steps. steps.items
        ≡ flat_map (entry_steps facts.now.content.today facts.now.content.criteria records.now)
        (all_sourced facts.now.content.peers taken.now)) }
    ensures local { AreLocal facts.now.content local.new }
{
    let mut steps = Vec::new(alloc);
    for entry in taken {
        let criteria = criteria_of(alloc, entry, facts, local)?;
        let today = facts.today();
        add_kind_steps(&mut steps, &entry.held.entry.kind, today, records, criteria)?;
    }
    Ok(steps)
}

// The local criteria of an entry.
fn criteria_of(
    alloc: Global,
    entry: &Taken<'_>,
    facts: &EntryFacts,
    local: &mut LocalCriteria,
) -> Result<CriteriaSet, AllocError>
    requires local { AreLocal facts.now.content local.old }
    requires peer { HasPeer facts.now.content.peers entry.now }
    ensures criteria { IfOk result (λ set. set
        ≡ local_criteria facts.now.content.criteria (peer_at facts.now.content.peers entry.now.peer)
        entry.now.held.now.entry.criteria) }
    ensures local { AreLocal facts.now.content local.new }
{
    match entry.peer {
        None => Ok(local.of_own(facts, &entry.held.entry.criteria)),
        Some(place) => {
            let criteria = local.of_peer(alloc, facts, place, &entry.held.entry.criteria)?;
            Ok(criteria)
        }
    }
}
