//! Reading the one row of `meta`.
ghost use Rattle.std.specs.Prelude.{◌≡◌, ◌∷◌, [], Ok};
ghost use Rattle.vet_base.specs.Items.{SameItems};
ghost use Rattle.vet_item_rows.specs.ReadBack.{IsWritten, Reads};
ghost use Rattle.vet_rows.specs.HeldValues.{AreSettings};
ghost use Rattle.vet_rows.specs.MetaRow.{row_of_meta};
ghost use Rattle.vet_rows.specs.ReadValues.{IsMeta};
ghost use Rattle.vet_rows.specs.declared.meta.Meta.{Meta as MetaValue};

use crate::meta::{Meta, MetaNumbers};
use std::alloc::Global;
use vet_graph::standing::Counts;
use vet_item_rows::read::columns::{number, optional_names, optional_text};
use vet_item_rows::read::from_row::FromRow;
use vet_item_rows::read::read_error::{ReadError, found};
use vet_register::tool_settings::ToolSettings;
use vet_tables::cell::Cell;
use vet_tables::sequence::Row;
use vet_tables::version::TablesVersion;

/// What the row of `meta` says. Rows other than one such row give `NotARegister` or some value, and no clause says
/// which.
pub(crate) fn read_meta(alloc: Global, rows: &[Row]) -> Result<Meta, ReadError>
    ensures { (m : MetaValue) → IsMeta m → SameItems rows.now (row_of_meta m ∷ []) → Reads result m }
{
    Meta::from_row(alloc, found(rows.first())?)
}

impl FromRow for Meta {
    ghost stands_for = { IsWritten IsMeta row_of_meta };

    fn from_row(alloc: Global, row: &Row) -> Result<Meta, ReadError> {
        check_key(row)?;
        Ok(Meta {
            version: tables_version(row)?,
            numbers: numbers(row)?,
            first: first_counts(row)?,
            settings: settings(alloc, row)?,
        })
    }
}

// Refuses a row whose key is not the one that is written. Takes no memory.
fn check_key(row: &Row) -> Result<(), ReadError>
    ensures { (m : MetaValue) → row.now ≡ row_of_meta m → result ≡ Ok tt }
{
    let [Cell::Int(one), ..] = row.as_slice() else {
        return Err(ReadError::NotARegister);
    };
    if number(*one)? != 1 {
        return Err(ReadError::NotARegister);
    }
    Ok(())
}

// The version of the tables in a row of `meta`. Takes no memory.
fn tables_version(row: &Row) -> Result<TablesVersion, ReadError>
    ensures { (m : MetaValue) → row.now ≡ row_of_meta m → result ≡ Ok m.version }
{
    let [_, Cell::Int(version), ..] = row.as_slice() else {
        return Err(ReadError::NotARegister);
    };
    found(TablesVersion::of_number(*version))
}

// The numbers of a row. Takes no memory.
fn numbers(row: &Row) -> Result<MetaNumbers, ReadError>
    ensures { (m : MetaValue) → row.now ≡ row_of_meta m → result ≡ Ok m.numbers }
{
    let [
        _,
        _,
        Cell::Int(step),
        Cell::Int(next_entry),
        Cell::Int(next_review),
        Cell::Int(moves_limit),
        ..
    ] = row.as_slice()
    else {
        return Err(ReadError::NotARegister);
    };
    Ok(MetaNumbers {
        step: number(*step)?,
        next_entry: number(*next_entry)?,
        next_review: number(*next_review)?,
        moves_limit: number(*moves_limit)? as usize,
    })
}

// How many pairs of each class there were at first. Takes no memory.
fn first_counts(row: &Row) -> Result<Counts, ReadError>
    ensures { (m : MetaValue) → row.now ≡ row_of_meta m → result ≡ Ok m.first }
{
    let [
        ..,
        Cell::Int(conflicting),
        Cell::Int(full),
        Cell::Int(partial),
        Cell::Int(exempted),
        Cell::Int(unvetted),
        _,
        _,
    ] = row.as_slice()
    else {
        return Err(ReadError::NotARegister);
    };
    Ok(Counts {
        conflicting: number(*conflicting)?,
        full: number(*full)?,
        partial: number(*partial)?,
        exempted: number(*exempted)?,
        unvetted: number(*unvetted)?,
    })
}

// What a config file says only to the tool.
fn settings(alloc: Global, row: &Row) -> Result<ToolSettings, ReadError>
    ensures { (m : MetaValue) → AreSettings m.settings → row.now ≡ row_of_meta m → Reads result m.settings }
{
    let [.., Cell::Blob(of_version), Cell::Blob(criteria)] = row.as_slice() else {
        return Err(ReadError::NotARegister);
    };
    Ok(ToolSettings {
        vet_version: optional_text(alloc, of_version.as_slice())?,
        default_criteria: optional_names(alloc, criteria.as_slice())?,
    })
}
