//! Rows that are put into tables and removed inside a transaction. Each call returns the database's error, if any.
ghost use Rattle.sqlite.specs.Held.{state};
ghost use Rattle.sqlite.specs.State.{HasCleanDisk, KeepsCommit, Survives};
ghost use Rattle.sqlite.specs.Values.{bound};
ghost use Rattle.std.specs.Prelude.{◌≡◌, IsTrue, OnOk};
ghost use Rattle.vet_store.specs.Changes.{Changes, TellsRow};
ghost use Rattle.vet_tables.specs.Cells.{IsRowOf, Row as RowValue, added, cleared, dropped, put, values_of};
ghost use Rattle.vet_tables.specs.Form.{key_of};
ghost use Rattle.vet_tables.specs.Forms.{form_of};

use sqlite::types::ValueRef;
use sqlite::{Alter, Error, Transaction};
use std::alloc::Global;
use vet_tables::cell::lend_all;
use vet_tables::sequence::Row;
use vet_tables::statements;
use vet_tables::table_name::TableName;

/// Puts a row into its table, in place of the one of its key. Asks for a row of the table.
pub fn put<S: Alter>(
    alloc: Global,
    tx: &mut Transaction<'_, S>,
    table: TableName,
    row: &Row,
) -> Result<(), Error>
    requires { IsRowOf (form_of table) row.now }
    ensures same_reference { tx.new.conn.ghost_name ≡ tx.old.conn.ghost_name }
    ensures changes { HasCleanDisk (state S.Store tx.new.conn.now) → IsTrue tx.old.conn.now.in_transaction
        → OnOk result (Changes (state S.Store tx.old.conn.now) (state S.Store tx.new.conn.now) (put table row.now)) }
    ensures kept { HasCleanDisk (state S.Store tx.new.conn.now)
        → KeepsCommit (state S.Store tx.old.conn.now) (state S.Store tx.new.conn.now) }
    ensures survives { Survives (state S.Store tx.old.conn.now) (state S.Store tx.new.conn.now) (λ _. ⊥) }
{
    let cells = lend_all(alloc, row.as_slice())?;
    put_cells(tx, table, cells.as_slice())
}

/// Removes the row that has this row's key, if there is one. Asks for a row of the table.
pub fn drop_row<S: Alter>(
    alloc: Global,
    tx: &mut Transaction<'_, S>,
    table: TableName,
    row: &Row,
) -> Result<(), Error>
    requires { IsRowOf (form_of table) row.now }
    ensures same_reference { tx.new.conn.ghost_name ≡ tx.old.conn.ghost_name }
    ensures changes { HasCleanDisk (state S.Store tx.new.conn.now) → IsTrue tx.old.conn.now.in_transaction
        → OnOk result (Changes (state S.Store tx.old.conn.now) (state S.Store tx.new.conn.now)
        (dropped table row.now)) }
    ensures kept { HasCleanDisk (state S.Store tx.new.conn.now)
        → KeepsCommit (state S.Store tx.old.conn.now) (state S.Store tx.new.conn.now) }
    ensures survives { Survives (state S.Store tx.old.conn.now) (state S.Store tx.new.conn.now) (λ _. ⊥) }
{
    let cells = lend_all(alloc, row.as_slice())?;
    drop_cells(tx, table, cells.as_slice())
}

/// Removes all rows of a table.
pub fn clear<S: Alter>(tx: &mut Transaction<'_, S>, table: TableName) -> Result<(), Error>
    ensures same_reference { tx.new.conn.ghost_name ≡ tx.old.conn.ghost_name }
    ensures changes { HasCleanDisk (state S.Store tx.new.conn.now) → IsTrue tx.old.conn.now.in_transaction
        → OnOk result (Changes (state S.Store tx.old.conn.now) (state S.Store tx.new.conn.now) (cleared table)) }
    ensures kept { HasCleanDisk (state S.Store tx.new.conn.now)
        → KeepsCommit (state S.Store tx.old.conn.now) (state S.Store tx.new.conn.now) }
    ensures survives { Survives (state S.Store tx.old.conn.now) (state S.Store tx.new.conn.now) (λ _. ⊥) }
{
    statements::clear(tx, table)?;
    Ok(())
}

// Puts the row of these cells.
fn put_cells<S: Alter>(
    tx: &mut Transaction<'_, S>,
    table: TableName,
    cells: &[ValueRef<'_>],
) -> Result<(), Error>
    requires { (row : RowValue) × TellsRow table row (bound cells.now) }
    ensures same_reference { tx.new.conn.ghost_name ≡ tx.old.conn.ghost_name }
    ensures changes { HasCleanDisk (state S.Store tx.new.conn.now) → IsTrue tx.old.conn.now.in_transaction
        → (row : RowValue) → TellsRow table row (bound cells.now)
        → OnOk result (Changes (state S.Store tx.old.conn.now) (state S.Store tx.new.conn.now) (put table row)) }
    ensures kept { HasCleanDisk (state S.Store tx.new.conn.now)
        → KeepsCommit (state S.Store tx.old.conn.now) (state S.Store tx.new.conn.now) }
    ensures survives { Survives (state S.Store tx.old.conn.now) (state S.Store tx.new.conn.now) (λ _. ⊥) }
{
    drop_cells(tx, table, cells)?;
    insert_cells(tx, table, cells)
}

// Removes the row that has the key of these cells.
fn drop_cells<S: Alter>(
    tx: &mut Transaction<'_, S>,
    table: TableName,
    cells: &[ValueRef<'_>],
) -> Result<(), Error>
    requires { (row : RowValue) × TellsRow table row (bound cells.now) }
    ensures same_reference { tx.new.conn.ghost_name ≡ tx.old.conn.ghost_name }
    ensures changes { HasCleanDisk (state S.Store tx.new.conn.now) → IsTrue tx.old.conn.now.in_transaction
        → (row : RowValue) → TellsRow table row (bound cells.now)
        → OnOk result (Changes (state S.Store tx.old.conn.now) (state S.Store tx.new.conn.now) (dropped table row)) }
    ensures kept { HasCleanDisk (state S.Store tx.new.conn.now)
        → KeepsCommit (state S.Store tx.old.conn.now) (state S.Store tx.new.conn.now) }
    ensures survives { Survives (state S.Store tx.old.conn.now) (state S.Store tx.new.conn.now) (λ _. ⊥) }
{
    statements::remove(tx, table, key_cells(table, cells))?;
    Ok(())
}

// Adds the row of these cells, whose key is free.
fn insert_cells<S: Alter>(
    tx: &mut Transaction<'_, S>,
    table: TableName,
    cells: &[ValueRef<'_>],
) -> Result<(), Error>
    ensures same_reference { tx.new.conn.ghost_name ≡ tx.old.conn.ghost_name }
    ensures changes { HasCleanDisk (state S.Store tx.new.conn.now) → IsTrue tx.old.conn.now.in_transaction
        → (row : RowValue) → TellsRow table row (bound cells.now)
        → OnOk result (Changes (state S.Store tx.old.conn.now) (state S.Store tx.new.conn.now) (added table row)) }
    ensures kept { HasCleanDisk (state S.Store tx.new.conn.now)
        → KeepsCommit (state S.Store tx.old.conn.now) (state S.Store tx.new.conn.now) }
    ensures survives { Survives (state S.Store tx.old.conn.now) (state S.Store tx.new.conn.now) (λ _. ⊥) }
{
    statements::insert(tx, table, cells)?;
    Ok(())
}

// The cells of the key.
fn key_cells<'a, 'b>(table: TableName, cells: &'a [ValueRef<'b>]) -> &'a [ValueRef<'b>]
    requires { (row : RowValue) × TellsRow table row (bound cells.now) }
    ensures { (row : RowValue) → TellsRow table row (bound cells.now)
        → bound result.now ≡ key_of (form_of table) (values_of row) }
{
    &cells[..table.form().key()]
}
