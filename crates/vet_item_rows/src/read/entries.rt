//! Reading the rows of entries. Last days are in another table (`days`).
ghost use Rattle.vet_entries.specs.declared.facts.HeldEntry.{HeldEntry};
ghost use Rattle.vet_item_rows.specs.EntryRows.{entry_row};
ghost use Rattle.vet_item_rows.specs.ReadBack.{IsWritten, Reads};
ghost use Rattle.vet_item_rows.specs.ReadFacts.{IsRowEntry};

use crate::read::cells::{blob_at, int_at, text_at};
use crate::read::columns::{names, number, optional_text, package_name, source};
use crate::read::from_row::FromRow;
use crate::read::kinds::kind;
use crate::read::read_error::ReadError;
use std::alloc::Global;
use vet_entries::entry::Entry;
use vet_entries::facts::HeldEntry;
use vet_tables::sequence::Row;

impl FromRow for HeldEntry {
    ghost stands_for = { IsWritten IsRowEntry entry_row };

    fn from_row(alloc: Global, row: &Row) -> Result<HeldEntry, ReadError> {
        Ok(HeldEntry {
            number: number(int_at(row, 0)?)?,
            entry: entry(alloc, row)?,
        })
    }
}

// The entry of a row.
fn entry(alloc: Global, row: &Row) -> Result<Entry, ReadError>
    ensures { (held : HeldEntry) → IsWritten IsRowEntry entry_row row.now held → Reads result held.entry }
{
    Ok(Entry {
        source: source(alloc, text_at(row, 1)?)?,
        package: package_name(alloc, text_at(row, 2)?)?,
        kind: kind(alloc, row)?,
        criteria: names(alloc, blob_at(row, 9)?)?,
        notes: optional_text(alloc, blob_at(row, 11)?)?,
    })
}
