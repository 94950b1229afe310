//! Changes of rows inside a transaction.
ghost use Rattle.std.specs.Prelude.{◌≡◌, ◌<◌, ◌⊎◌, [], IsTrue, OnOk};
ghost use Rattle.sqlite.specs.Held.{state};
ghost use Rattle.sqlite.specs.State.{HasCleanDisk, KeepsCommit, Survives};
ghost use Rattle.vet_base.specs.Items.{IsIn};
ghost use Rattle.vet_rows.specs.FitChanges.{Fits};
ghost use Rattle.vet_rows.specs.RowChanges.{all_changed, changed};
ghost use Rattle.vet_rows.specs.declared.row_change.RowChange.{RowChange as Change};
ghost use Rattle.vet_store.specs.Changes.{Changes};
ghost use Rattle.vet_store.specs.Made.{FillsTables};

use crate::statements::{clear, drop_row, put};
use sqlite::{Alter, Error, Transaction};
use std::alloc::Global;
use vet_rows::row_change::RowChange;
use vet_tables::statements::create_from;
use vet_tables::table_name::TABLE_COUNT;

fn apply<S: Alter>(
    alloc: Global,
    tx: &mut Transaction<'_, S>,
    change: &RowChange,
) -> Result<(), Error>
    requires { Fits change.now }
    ensures same_reference { tx.new.conn.ghost_name ≡ tx.old.conn.ghost_name }
    ensures changes { HasCleanDisk (state S.Store tx.new.conn.now) → IsTrue tx.old.conn.now.in_transaction
        → OnOk result (Changes (state S.Store tx.old.conn.now) (state S.Store tx.new.conn.now) (changed change.now)) }
    ensures kept { HasCleanDisk (state S.Store tx.new.conn.now)
        → KeepsCommit (state S.Store tx.old.conn.now) (state S.Store tx.new.conn.now) }
    ensures survives { Survives (state S.Store tx.old.conn.now) (state S.Store tx.new.conn.now) (λ _. ⊥) }
{
    match change {
        RowChange::Put(table, row) => put(alloc, tx, *table, row),
        RowChange::Drop(table, row) => drop_row(alloc, tx, *table, row),
        RowChange::Clear(table) => clear(tx, *table),
    }
}

/// Makes the changes in their order. Asks that their rows have the columns of their tables. Stops at the first that
/// fails, and returns its error.
pub fn apply_all<S: Alter>(
    alloc: Global,
    tx: &mut Transaction<'_, S>,
    changes: &[RowChange],
) -> Result<(), Error>
    requires { (c : Change) → IsIn c changes.now → Fits c }
    ensures same_reference { tx.new.conn.ghost_name ≡ tx.old.conn.ghost_name }
    ensures changes { HasCleanDisk (state S.Store tx.new.conn.now) → IsTrue (state S.Store tx.old.conn.now).is_open
        → IsTrue tx.old.conn.now.in_transaction
        → OnOk result (Changes (state S.Store tx.old.conn.now) (state S.Store tx.new.conn.now)
        (all_changed changes.now)) }
    ensures opens { HasCleanDisk (state S.Store tx.new.conn.now) → IsTrue tx.old.conn.now.in_transaction
        → OnOk result ((changes.now ≡ []) ⊎ IsTrue (state S.Store tx.old.conn.now).is_open) }
    ensures kept { HasCleanDisk (state S.Store tx.new.conn.now)
        → KeepsCommit (state S.Store tx.old.conn.now) (state S.Store tx.new.conn.now) }
    ensures survives { Survives (state S.Store tx.old.conn.now) (state S.Store tx.new.conn.now) (λ _. ⊥) }
{
    for change in changes {
        apply(alloc, tx, change)?;
    }
    Ok(())
}

/// Makes the tables from a given place on, and then the changes. Asks that `first` is the place of a table, 0 to 13,
/// and that the rows of the changes have the columns of their tables. Stops at the first call that fails, and returns
/// its error.
pub fn fill<S: Alter>(
    alloc: Global,
    tx: &mut Transaction<'_, S>,
    first: usize,
    changes: &[RowChange],
) -> Result<(), Error>
    requires place { first < TABLE_COUNT }
    requires fit { (c : Change) → IsIn c changes.now → Fits c }
    ensures same_reference { tx.new.conn.ghost_name ≡ tx.old.conn.ghost_name }
    ensures fills { HasCleanDisk (state S.Store tx.new.conn.now) → IsTrue (state S.Store tx.old.conn.now).is_open
        → IsTrue tx.old.conn.now.in_transaction
        → OnOk result (FillsTables first (state S.Store tx.old.conn.now) (state S.Store tx.new.conn.now)
        (all_changed changes.now)) }
    ensures opens { HasCleanDisk (state S.Store tx.new.conn.now) → IsTrue tx.old.conn.now.in_transaction
        → OnOk result (IsTrue (state S.Store tx.old.conn.now).is_open) }
    ensures kept { HasCleanDisk (state S.Store tx.new.conn.now)
        → KeepsCommit (state S.Store tx.old.conn.now) (state S.Store tx.new.conn.now) }
    ensures survives { Survives (state S.Store tx.old.conn.now) (state S.Store tx.new.conn.now) (λ _. ⊥) }
{
    create_from(tx, first)?;
    apply_all(alloc, tx, changes)
}
