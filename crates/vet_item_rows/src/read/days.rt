//! Reading last days and the register's day from their rows.
//!
//! An entry is first read without its last day, which is in no column of its row. Then each own entry gets the day
//! under its number in the table `lasts`.
ghost use Rattle.std.specs.Prelude.{◌≡◌, IfOk, List, MatchResult, Option, map};
ghost use Rattle.std.specs.List.{flat_map};
ghost use Rattle.vet_base.specs.Day.{DayValue};
ghost use Rattle.vet_base.specs.Items.{SameItems};
ghost use Rattle.vet_entries.specs.Numbered.{AreByNumber};
ghost use Rattle.vet_entries.specs.declared.facts.HeldEntry.{HeldEntry as EntryValue};
ghost use Rattle.vet_item_rows.specs.DayRows.{entry_of_group, entry_with_first_day, filed_day_row, first_day};
ghost use Rattle.vet_item_rows.specs.DayRows.{kind_with_first_day, kind_with_last_day, last_days, plain_entry};
ghost use Rattle.vet_item_rows.specs.DayRows.{today_rows};
ghost use Rattle.vet_item_rows.specs.ReadBack.{IsWritten};
ghost use Rattle.vet_item_rows.specs.ReadFacts.{IsFiledDay};
ghost use Rattle.vet_item_rows.specs.Values.{IsDay, MayBe};

use crate::read::columns::{day, number};
use crate::read::from_row::{FromRow, read_rows};
use crate::read::gathered::{Group, WithKey, gather};
use crate::read::read_error::ReadError;
use std::alloc::{AllocError, Global};
use vet_base::day::Day;
use vet_entries::facts::HeldEntry;
use vet_entries::kind::Kind;
use vet_tables::cell::Cell;
use vet_tables::sequence::Row;

impl FromRow for WithKey<u64, Day> {
    ghost stands_for = { IsWritten IsFiledDay filed_day_row };

    fn from_row(_alloc: Global, row: &Row) -> Result<WithKey<u64, Day>, ReadError> {
        let [Cell::Int(of_number), Cell::Int(on_day)] = row.as_slice() else {
            return Err(ReadError::NotARegister);
        };
        let number = number(*of_number)?;
        let day = day(*on_day)?;
        Ok(WithKey {
            key: number,
            item: day,
        })
    }
}

/// The register's day, or `None` if there is no row of it. If there are several rows, it is the day of the first.
/// Refused: `NotARegister`, only if the rows are not those of any day, and `NoMemory`.
pub(crate) fn today_in(alloc: Global, rows: &[Row]) -> Result<Option<Day>, ReadError>
    ensures { (today : Option DayValue) → MayBe IsDay today → SameItems rows.now (today_rows today)
        → MatchResult result (λ found. found ≡ today) (λ e. e ≡ ReadError.NoMemory) }
{
    let days = read_rows(alloc, rows)?;
    Ok(first_day(days.as_slice()))
}

// The first of these days, if there is one.
fn first_day(days: &[WithKey<u64, Day>]) -> Option<Day>
    ensures { result ≡ first_day days.now }
{
    match days.first() {
        None => None,
        Some(filed) => Some(filed.item),
    }
}

/// Entries in the order of their numbers, each with the last day under its number, if there is one. Days under other
/// numbers, or under those of other kinds of entries, are ignored. Fails only if memory runs out.
pub(crate) fn with_last_days(
    alloc: Global,
    entries: Vec<HeldEntry>,
    days: Vec<WithKey<u64, Day>>,
) -> Result<Vec<HeldEntry>, AllocError>
    requires { AreByNumber entries.items }
    ensures by_number { IfOk result (λ dated. AreByNumber dated.items) }
    ensures back { IfOk result (λ dated. (held : List EntryValue) → AreByNumber held
        → entries.items ≡ map plain_entry held → SameItems days.items (flat_map last_days held)
        → dated.items ≡ held) }
{
    let groups = gather(alloc, entries, days)?;
    let dated = entries_of(alloc, groups)?;
    Ok(dated)
}

// The entry of each group.
fn entries_of(
    alloc: Global,
    groups: Vec<Group<HeldEntry, Day>>,
) -> Result<Vec<HeldEntry>, AllocError>
    ensures { IfOk result (λ entries. entries.items ≡ map entry_of_group groups.items) }
{
    let mut entries = Vec::new(alloc);
    'groups: for group in groups {
        entries.push(entry_of(group))?;
    }
    Ok(entries)
}

// The entry of a group, with the first of its days as its last day.
fn entry_of(group: Group<HeldEntry, Day>) -> HeldEntry
    ensures { result ≡ entry_of_group group }
{
    let (held, days) = group.into_parts();
    entry_with_first_day(held, days.as_slice())
}

// An entry with the first of these days as its last day, if there is one.
fn entry_with_first_day(mut held: HeldEntry, days: &[Day]) -> HeldEntry
    ensures { result ≡ entry_with_first_day days.now held }
{
    set_first_day(&mut held.entry.kind, days);
    held
}

// Sets the last day of an exemption to the first of these days, if there is one.
fn set_first_day(kind: &mut Kind, days: &[Day])
    ensures { kind.new ≡ kind_with_first_day days.now kind.old }
{
    if let Some(day) = days.first() {
        set_last_day(kind, *day);
    }
}

// Sets the last day of an exemption. Other kinds stay as they are.
fn set_last_day(kind: &mut Kind, day: Day)
    ensures { kind.new ≡ kind_with_last_day day kind.old }
{
    match kind {
        Kind::Exemption {
            version: _,
            suggest: _,
            last_day,
        } => *last_day = Some(day),
        _ => {}
    }
}
