//! The rows of last days, and of the register's day.
ghost use Rattle.std.specs.List.{All, flat_map};
ghost use Rattle.std.specs.Prelude.{◌≡◌, ◌++◌, IfOk, OnOk};
ghost use Rattle.vet_item_rows.specs.DayRows.{dated_row, last_rows, today_rows};
ghost use Rattle.vet_item_rows.specs.Numbers.{EntryFits};

use std::alloc::{AllocError, Global};
use vet_base::day::Day;
use vet_entries::facts::HeldEntry;
use vet_tables::cell::Cell;
use vet_tables::sequence::{Row, Sequence};

/// The one row of the register's day, or no row if there is none. Fails only if memory runs out.
pub fn today_rows(alloc: Global, today: Option<Day>) -> Result<Vec<Row>, AllocError>
    ensures { IfOk result (λ rows. rows.items ≡ today_rows today) }
{
    match today {
        None => Ok(Vec::new(alloc)),
        Some(day) => Ok(vec![in alloc; dated_row(alloc, 1, day)?]?),
    }
}

/// The rows of the last days of these entries; an entry without one has no row. Asks that the numbers of the entries
/// are below 2^63. Fails only if memory runs out.
pub fn all_last_days(alloc: Global, entries: &[HeldEntry]) -> Result<Vec<Row>, AllocError>
    requires { All EntryFits entries.now }
    ensures { IfOk result (λ rows. rows.items ≡ flat_map last_rows entries.now) }
{
    let mut rows = Vec::new(alloc);
    'entries: for held in entries {
        push_last_day(alloc, &mut rows, held)?;
    }
    Ok(rows)
}

/// Adds the row of an entry's last day, if it has one, after others. Asks that the number of the entry is below 2^63.
/// Fails only if memory runs out.
pub fn push_last_day(alloc: Global, rows: &mut Vec<Row>, held: &HeldEntry) -> Result<(), AllocError>
    requires { EntryFits held.now }
    ensures { OnOk result (rows.new.items ≡ rows.old.items ++ last_rows held.now) }
{
    match held.entry.kind.last_day() {
        None => Ok(()),
        Some(day) => {
            rows.push(dated_row(alloc, held.number as i64, day)?)?;
            Ok(())
        }
    }
}

// A row with a number and a day.
fn dated_row(alloc: Global, number: i64, day: Day) -> Result<Row, AllocError>
    ensures { IfOk result (λ row. row ≡ dated_row number day) }
{
    let cells = vec![in alloc; Cell::Int(number), Cell::Int(i64::from(day.number()))]?;
    Ok(Sequence::of(cells))
}
