//! Lists of held entries.
ghost use Rattle.std.specs.List.{list_any};
ghost use Rattle.std.specs.Prelude.{◌≡◌, IfOk, filter, length};
ghost use Rattle.vet_entries.specs.Facts.{is_named_by};
ghost use Rattle.vet_entries.specs.Numbered.{entry_number, numbered};
ghost use Rattle.vet_entries.specs.Replaced.{is_dated, is_dated_beyond};

use crate::entry::Entry;
use crate::facts::HeldEntry;
use std::alloc::{AllocError, Global};
use vet_base::criteria_table::CriteriaTable;
use vet_base::keyed::HasKey;
use vet_base::name::Name;

impl HasKey for HeldEntry {
    type Key = u64;

    ghost key_of = { entry_number };

    fn key(&self) -> &u64 {
        &self.number
    }
}

/// Some entries, numbered from 1. Fails only if memory runs out.
pub(crate) fn numbered(alloc: Global, entries: Vec<Entry>) -> Result<Vec<HeldEntry>, AllocError>
    ensures { IfOk result (λ held. held.items ≡ numbered 1 entries.items) }
{
    let mut held = Vec::new(alloc);
    let mut number = 0;
    for entry in entries {
        number += 1;
        held.push(HeldEntry { number, entry })?;
    }
    Ok(held)
}

/// Whether any of some entries names a criterion.
pub(crate) fn names(entries: &[HeldEntry], name: &Name) -> bool
    ensures { result ≡ list_any (is_named_by name.now) entries.now }
{
    entries
        .iter()
        .any(|held| held.entry.criteria.contains(name))
}

/// The number of exemptions with a last day among some entries.
pub(crate) fn dated_count(entries: &[HeldEntry]) -> usize
    ensures { result ≡ length (filter is_dated entries.now) }
{
    entries.iter().filter(|held| is_dated(held)).count()
}

// Whether an entry is an exemption with a last day.
fn is_dated(held: &HeldEntry) -> bool
    ensures { result ≡ is_dated held.now }
{
    held.entry.kind.has_last_day()
}

/// Whether any of some entries is an exemption with a last day that names a criterion that a table lacks.
pub(crate) fn has_dated_beyond(entries: &[HeldEntry], table: &CriteriaTable) -> bool
    ensures { result ≡ list_any (is_dated_beyond table.now) entries.now }
{
    entries.iter().any(|held| is_dated_beyond(held, table))
}

// Whether an entry is an exemption with a last day that names a criterion that a table lacks.
fn is_dated_beyond(held: &HeldEntry, table: &CriteriaTable) -> bool
    ensures { result ≡ is_dated_beyond table.now held.now }
{
    if !held.entry.kind.has_last_day() {
        return false;
    }
    match table.least_unknown(&held.entry.criteria) {
        Some(_) => true,
        None => false,
    }
}
