//! The rows of a state.
//!
//! **`rows_of` gives the rows of a register's state, each once.**
//!
//! Each thing that is held has its row (`ToRow`), and each table its list of rows. There is a file each for the tables
//! of facts, of policies and projects, of the desk and of days. A column of numbers holds numbers below 2^63, and all
//! numbers of a sound state are below that (`numbers_fit`, `counts_fit`).
ghost use Rattle.std.specs.Prelude.{◌≡◌, IfErr, IfOk};
ghost use Rattle.vet_rows.specs.RowsOf.{rows_by, rows_of};
ghost use Rattle.vet_tables.specs.Cells.{rows_in};

mod day_rows;
mod demand_rows;
pub mod desk_rows;
pub mod entry_rows;
mod facts_rows;
pub mod meta_rows;
pub mod setting_rows;
pub mod standing_rows;
pub mod to_row;

use crate::rows_of::day_rows::rows_of_days;
use crate::rows_of::demand_rows::rows_of_demand;
use crate::rows_of::desk_rows::rows_of_desk;
use crate::rows_of::facts_rows::rows_of_facts;
use crate::rows_of::meta_rows::{meta_row, numbers_fit};
use crate::rows_of::standing_rows::all_standing;
use crate::rows_of::to_row::rows_each;
use std::alloc::{AllocError, Global};
use vet_base::refusal::Refusal;
use vet_graph::keeper::Keeper;
use vet_register::register::Register;
use vet_tables::rows::Rows;
use vet_tables::sequence::Row;
use vet_tables::table_name::{TABLE_COUNT, TableName, table_at};
use vet_tables::version::TablesVersion;

/// The rows of a register's state: a list for each table, each row once. Costs a look at each thing that is held, and a
/// binary search for each demanded pair. Refused: `NoMemory`.
pub fn rows_of<K: Keeper>(alloc: Global, register: &Register<K>) -> Result<Rows, Refusal>
    ensures ok { IfOk result (λ rows. rows_in rows ≡ rows_of register.now.state) }
    ensures memory { IfErr result (λ e. e ≡ Refusal.NoMemory) }
{
    rows_by(alloc, TablesVersion::Second, register)
}

/// The rows of a register's state in tables of a version, whose number is in the row of `meta`. Costs what `rows_of`
/// does. Refused: `NoMemory`.
pub fn rows_by<K: Keeper>(
    alloc: Global,
    version: TablesVersion,
    register: &Register<K>,
) -> Result<Rows, Refusal>
    ensures ok { IfOk result (λ rows. rows_in rows ≡ rows_by version register.now.state) }
    ensures memory { IfErr result (λ e. e ≡ Refusal.NoMemory) }
{
    let mut rows = Rows::new(alloc);
    'tables: for at in 0..TABLE_COUNT {
        rows.push(rows_in(alloc, version, register, table_at(at))?)?;
    }
    Ok(rows)
}

/// The rows of one table, in tables of a version: only the row of `meta` depends on it. Fails only if memory runs out.
pub fn rows_in<K: Keeper>(
    alloc: Global,
    version: TablesVersion,
    register: &Register<K>,
    table: TableName,
) -> Result<Vec<Row>, AllocError>
    ensures { IfOk result (λ rows. rows.items ≡ rows_by version register.now.state table) }
{
    numbers_fit(register);
    match table {
        TableName::Meta => Ok(vec![in alloc; meta_row(alloc, version, register)?]?),
        TableName::Facts(table) => rows_of_facts(alloc, register.facts(), table),
        TableName::Demand(table) => rows_of_demand(alloc, register, table),
        TableName::Standing => all_standing(alloc, register),
        TableName::Moves => rows_each(alloc, register.moves()),
        TableName::Desk(table) => rows_of_desk(alloc, register.desk(), table),
        TableName::Days(table) => rows_of_days(alloc, register.facts(), table),
    }
}
