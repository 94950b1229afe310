//! The rows of the tables of days: that of the register's day, and those of last days.
ghost use Rattle.std.specs.List.{All};
ghost use Rattle.std.specs.Prelude.{◌≡◌, IfOk};
ghost use Rattle.vet_item_rows.specs.Numbers.{EntryFits};
ghost use Rattle.vet_rows.specs.DayRows.{rows_of_days};

use std::alloc::{AllocError, Global};
use vet_entries::facts::EntryFacts;
use vet_item_rows::rows_of::day_rows::{all_last_days, today_rows};
use vet_tables::sequence::Row;
use vet_tables::table_name::DaysTable;

/// The rows of a table of days. Asks that the numbers of entries are below 2^63. Fails only if memory runs out.
pub(crate) fn rows_of_days(
    alloc: Global,
    facts: &EntryFacts,
    table: DaysTable,
) -> Result<Vec<Row>, AllocError>
    requires { All EntryFits facts.now.content.entries }
    ensures { IfOk result (λ rows. rows.items ≡ rows_of_days facts.now.content table) }
{
    match table {
        DaysTable::Today => today_rows(alloc, facts.today()),
        DaysTable::Lasts => all_last_days(alloc, facts.entries()),
    }
}
