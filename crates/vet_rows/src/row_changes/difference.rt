//! The changes of an exchange of rows. A table that may have thousands of rows gets only those that differ.
ghost use Rattle.std.specs.Prelude.{◌≡◌, ◌++◌, ◌∷◌, [], IfOk, OnOk, cond, length, map};
ghost use Rattle.vet_rows.specs.RowExchanges.{drops_then_puts, exchange_of, is_compared, less, row_changes_of};
ghost use Rattle.vet_rows.specs.RowExchanges.{unmarked};
ghost use Rattle.vet_rows.specs.declared.row_change.RowChange.TheVariants as change;

use crate::row_change::RowChange;
use std::alloc::{AllocError, Global};
use vet_tables::same_items::marks_among;
use vet_tables::sequence::Row;
use vet_tables::table_name::{DemandTable, FactsTable, TableName};

/// Adds the changes that remove some rows of a table and add others. If the table may have thousands of rows, these are
/// only the rows that differ. Fails only if memory runs out.
pub fn push_row_changes(
    alloc: Global,
    changes: &mut Vec<RowChange>,
    table: TableName,
    removed: Vec<Row>,
    added: Vec<Row>,
) -> Result<(), AllocError>
    ensures { OnOk result (changes.new.items
        ≡ changes.old.items ++ row_changes_of (exchange_of table removed.items added.items)) }
{
    if is_compared(table) {
        return push_difference(alloc, changes, table, removed, added);
    }
    push_drops_then_puts(changes, table, removed, added)
}

// Adds the changes that remove some rows of a table, and then those that add others.
fn push_drops_then_puts(
    changes: &mut Vec<RowChange>,
    table: TableName,
    removed: Vec<Row>,
    added: Vec<Row>,
) -> Result<(), AllocError>
    ensures { OnOk result (changes.new.items ≡ changes.old.items ++ drops_then_puts table removed.items added.items) }
{
    push_drops(changes, table, removed)?;
    push_puts(changes, table, added)
}

// The same, except that rows that would be removed and added again stay. Costs a search for each row among the others.
fn push_difference(
    alloc: Global,
    changes: &mut Vec<RowChange>,
    table: TableName,
    removed: Vec<Row>,
    added: Vec<Row>,
) -> Result<(), AllocError>
    ensures { OnOk result (changes.new.items ≡ changes.old.items
        ++ drops_then_puts table (less removed.items added.items) (less added.items removed.items)) }
{
    let in_added = marks_among(alloc, removed.as_slice(), added.as_slice())?;
    let in_removed = marks_among(alloc, added.as_slice(), removed.as_slice())?;
    let removed = unmarked(alloc, removed, in_added.as_slice())?;
    let added = unmarked(alloc, added, in_removed.as_slice())?;
    push_drops_then_puts(changes, table, removed, added)
}

// The rows that have no mark.
fn unmarked<R: Drop>(alloc: Global, rows: Vec<R>, marks: &[bool]) -> Result<Vec<R>, AllocError>
    requires { length marks.now ≡ length rows.items }
    ensures { IfOk result (λ left. left.items ≡ unmarked rows.items marks.now) }
{
    let mut left = Vec::new(alloc);
    let mut at = 0;
    'rows: for row in rows {
        push_unless(&mut left, row, marks[at])?;
        at += 1;
    }
    Ok(left)
}

// Adds a row unless it has a mark.
fn push_unless<R: Drop>(left: &mut Vec<R>, row: R, mark: bool) -> Result<(), AllocError>
    ensures { OnOk result (left.new.items ≡ left.old.items ++ cond mark [] (row ∷ [])) }
{
    if mark {
        return Ok(());
    }
    left.push(row)?;
    Ok(())
}

fn push_drops(
    changes: &mut Vec<RowChange>,
    table: TableName,
    rows: Vec<Row>,
) -> Result<(), AllocError>
    ensures { OnOk result (changes.new.items ≡ changes.old.items ++ map (λ r. change.Drop table r) rows.items) }
{
    'rows: for row in rows {
        changes.push(RowChange::Drop(table, row))?;
    }
    Ok(())
}

fn push_puts(
    changes: &mut Vec<RowChange>,
    table: TableName,
    rows: Vec<Row>,
) -> Result<(), AllocError>
    ensures { OnOk result (changes.new.items ≡ changes.old.items ++ map (λ r. change.Put table r) rows.items) }
{
    'rows: for row in rows {
        changes.push(RowChange::Put(table, row))?;
    }
    Ok(())
}

// Whether only the rows that differ are written: in the tables that may have thousands of rows, and in that of the
// register's day.
fn is_compared(table: TableName) -> bool
    ensures { result ≡ is_compared table }
{
    match table {
        TableName::Facts(FactsTable::Entries) | TableName::Facts(FactsTable::Publishers) => true,
        TableName::Demand(DemandTable::Nodes) | TableName::Demand(DemandTable::Edges) => true,
        TableName::Days(_) => true,
        _ => false,
    }
}
