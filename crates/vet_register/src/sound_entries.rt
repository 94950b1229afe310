//! Whether entries that are held are sound.
//!
//! **Entries pass exactly if each is of the source, no two are the same, and their numbers increase and are below the
//! next one.**
ghost use Rattle.std.specs.List.{All};
ghost use Rattle.std.specs.Prelude.{◌≡◌, ◌↔◌, IsTrue};
ghost use Rattle.vet_entries.specs.Numbered.{AreByNumber};
ghost use Rattle.vet_entries.specs.Step.{AreKnown, HasKnownCriteria, HasKnownTargets};
ghost use Rattle.vet_register.specs.Checks.{Checks};
ghost use Rattle.vet_register.specs.Sound.{AreEntries, IsFrom, IsGiven};

use std::alloc::Global;
use vet_base::criteria_table::CriteriaTable;
use vet_base::refusal::Refusal;
use vet_entries::distinct::are_distinct;
use vet_entries::entry::Source;
use vet_entries::facts::{EntryFacts, HeldEntry};
use vet_entries::held_peer::HeldPeer;

/// Whether entries are sound as those of a source, given the next number. Asks that their numbers increase. Costs, for
/// each entry, a search among those before it. Refused: `NotARegister` if they are not; `NoMemory`.
pub(crate) fn check_entries(
    alloc: Global,
    source: &Source,
    entries: &[HeldEntry],
    next: u64,
) -> Result<(), Refusal>
    requires { AreByNumber entries.now }
    ensures { Checks (AreEntries source.now entries.now next) result }
{
    if !are_from(source, entries) {
        return Err(Refusal::NotARegister);
    }
    if !are_given(entries, next) {
        return Err(Refusal::NotARegister);
    }
    if !are_distinct(alloc, entries)? {
        return Err(Refusal::NotARegister);
    }
    Ok(())
}

/// Whether the table has each criterion that own entries name, and each target of a peer's map.
pub(crate) fn check_known(facts: &EntryFacts) -> Result<(), Refusal>
    ensures { Checks (AreKnown facts.now.content) result }
{
    let criteria = facts.criteria();
    if !name_known(criteria, facts.entries()) {
        return Err(Refusal::NotARegister);
    }
    if !lead_to_known(criteria, facts.peers()) {
        return Err(Refusal::NotARegister);
    }
    Ok(())
}

// Whether each entry is of a source.
fn are_from(source: &Source, entries: &[HeldEntry]) -> bool
    ensures { IsTrue result ↔ All (IsFrom source.now) entries.now }
{
    entries.iter().all(|held| held.entry.source == *source)
}

// Whether each entry's number is below the next one.
fn are_given(entries: &[HeldEntry], next: u64) -> bool
    ensures { IsTrue result ↔ All (IsGiven next) entries.now }
{
    entries.iter().all(|held| held.number < next)
}

// Whether a table has each criterion that entries name.
fn name_known(criteria: &CriteriaTable, entries: &[HeldEntry]) -> bool
    ensures { IsTrue result ↔ All (HasKnownCriteria criteria.now) entries.now }
{
    entries.iter().all(|held| criteria.least_unknown(&held.entry.criteria).is_none())
}

// Whether a table has each criterion to which the maps of peers lead.
fn lead_to_known(criteria: &CriteriaTable, peers: &[HeldPeer]) -> bool
    ensures { IsTrue result ↔ All (HasKnownTargets criteria.now) peers.now }
{
    peers.iter().all(|peer| { peer.settings.map.least_target_outside(criteria).is_none() })
}
