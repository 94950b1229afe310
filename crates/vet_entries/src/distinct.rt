//! Lists of entries in which each occurs once.
ghost use Rattle.std.specs.BTreeSet.{IsFromIterResult};
ghost use Rattle.std.specs.List.{AllPairs};
ghost use Rattle.std.specs.Prelude.{◌≡◌, ◌≢◌, ◌↔◌, [], IfOk, IsTrue, map};
ghost use Rattle.vet_entries.specs.Entry.{own};
ghost use Rattle.vet_entries.specs.EntryOrder.{entry_cmp};
ghost use Rattle.vet_entries.specs.Distinct.{are_firsts, distinct};

use crate::entry::Entry;
use crate::facts::HeldEntry;
use crate::said::Said;
use std::alloc::{AllocError, Global};
use std::collections::BTreeSet;

/// Each of some entries once, in the order of their first places. Costs a search for each entry among those before it,
/// and copies none.
pub fn distinct(alloc: Global, entries: Vec<Entry>) -> Result<Vec<Entry>, AllocError>
    ensures { IfOk result (λ v. v.items ≡ distinct entries.items) }
{
    let marks = are_firsts(alloc, entries.as_slice())?;
    let mut kept = Vec::new(alloc);
    let mut place = 0;
    'entries: for entry in entries {
        let is_first = marks[place];
        place += 1;
        if is_first {
            kept.push(entry)?;
        }
    }
    Ok(kept)
}

/// Whether no two of some held entries say the same, whatever their sources. Costs a search for each entry among those
/// before it, and copies none.
pub fn are_distinct(alloc: Global, held: &[HeldEntry]) -> Result<bool, AllocError>
    ensures { IfOk result (λ distinct.
        IsTrue distinct ↔ AllPairs (λ a b. a ≢ b) (map (λ h. own h.entry) held.now)) }
{
    let said = said_by(alloc, held)?;
    Ok(said.len() == held.len())
}

// For each of some entries, whether none before it is the same.
fn are_firsts(alloc: Global, entries: &[Entry]) -> Result<Vec<bool>, AllocError>
    ensures { IfOk result (λ marks. marks.items ≡ are_firsts [] entries.now) }
{
    let mut seen = BTreeSet::new(alloc);
    let mut marks = Vec::with_capacity(alloc, entries.len())?;
    'entries: for entry in entries {
        marks.push(seen.insert(entry)?)?;
    }
    Ok(marks)
}

// The set of what some held entries say.
fn said_by<'a>(alloc: Global, held: &'a [HeldEntry]) -> Result<BTreeSet<Said<'a>>, AllocError>
    ensures { IfOk result (λ said. IsFromIterResult entry_cmp (map (λ h. own h.entry) held.now) said) }
{
    held.iter().map(|held| Said::of(&held.entry)).collect(alloc)
}
