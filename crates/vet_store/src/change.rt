//! Changes of the tables, all in one transaction.
ghost use Rattle.std.specs.Prelude.{◌≡◌, ◌<◌, ◌⊎◌, [], false, IfErr, IsTrue, OnErr, OnOk};
ghost use Rattle.sqlite.specs.Held.{state};
ghost use Rattle.sqlite.specs.State.{HasCleanDisk, Survives};
ghost use Rattle.vet_base.specs.Items.{IsIn};
ghost use Rattle.vet_rows.specs.FitChanges.{Fits};
ghost use Rattle.vet_rows.specs.RowChanges.{all_changed};
ghost use Rattle.vet_rows.specs.declared.row_change.RowChange.{RowChange as Change};
ghost use Rattle.vet_tables.specs.Contents.{KeepsOthers};
ghost use Rattle.vet_store.specs.Committed.{IsAfter, IsBefore};
ghost use Rattle.vet_store.specs.Made.{IsFilled};
ghost use Rattle.vet_tables.specs.Extends.{AddsTables};
ghost use Rattle.vet_tables.specs.Free.{AreUnusedFrom};
ghost use Rattle.vet_store.specs.Stands.{HoldsFirst, Stands};
ghost use Rattle.vet_tables.specs.Read.{Rests};

use crate::apply::{apply_all, fill};
use sqlite::{Alter, Connection, Error};
use std::alloc::Global;
use vet_rows::row_change::RowChange;
use vet_tables::table_name::TABLE_COUNT;

/// Why changes were not made: `Before` the commit nothing was changed. If the `Commit` itself failed, a crash may leave
/// either state.
#[derive(Drop)]
pub enum CommitError {
    Before(Error),
    Commit(Error),
}

/// Makes the changes in one transaction, in their order. Everything else in the database stays. Asks for a connection
/// outside a transaction, and that the rows of the changes have the columns of their tables. After an error the tables
/// still have the old rows, as long as the connection serves.
pub fn commit_changes<S: Alter>(
    alloc: Global,
    conn: &mut Connection<S>,
    changes: &[RowChange],
) -> Result<(), CommitError>
    requires autocommit { conn.old.in_transaction ≡ false }
    requires fit { (c : Change) → IsIn c changes.now → Fits c }
    ensures autocommit { conn.new.in_transaction ≡ false }
    ensures done { HasCleanDisk (state S.Store conn.new) → OnOk result (
        (rows : _) → Stands (state S.Store conn.old) rows
        → Stands (state S.Store conn.new) (all_changed changes.now rows)) }
    ensures kept { HasCleanDisk (state S.Store conn.new) → IsTrue (state S.Store conn.new).is_open → OnErr result (
        (rows : _) → Stands (state S.Store conn.old) rows → Stands (state S.Store conn.new) rows) }
    ensures others { HasCleanDisk (state S.Store conn.new) → IsTrue (state S.Store conn.new).is_open
        → (rows : _) → Stands (state S.Store conn.old) rows
        → KeepsOthers (state S.Store conn.old).now (state S.Store conn.new).now }
    ensures opens { HasCleanDisk (state S.Store conn.new) → OnOk result (IsTrue (state S.Store conn.old).is_open) }
    ensures was_open { HasCleanDisk (state S.Store conn.new) → IsTrue (state S.Store conn.new).is_open
        → IsTrue (state S.Store conn.old).is_open }
    ensures reaches { HasCleanDisk (state S.Store conn.new) → IfErr result (λ e. IsBefore e
        ⊎ ((changes.now ≡ []) ⊎ IsTrue (state S.Store conn.old).is_open)) }
    ensures before { IfErr result (λ e. IsBefore e
        → Survives (state S.Store conn.old) (state S.Store conn.new) (λ _. ⊥)) }
    ensures crash { Survives (state S.Store conn.old) (state S.Store conn.new)
        (IsAfter (state S.Store conn.old) (all_changed changes.now)) }
{
    let mut tx = conn.transaction();
    if let Err(error) = apply_all(alloc, &mut tx, changes) {
        tx.rollback();
        return Err(CommitError::Before(error));
    }
    match tx.commit() {
        Ok(()) => Ok(()),
        Err(error) => Err(CommitError::Commit(error)),
    }
}

/// Makes the tables from a given place on and then the changes, all in one transaction. Other tables stay as they are.
/// Asks that `first` is the place of a table, 0 to 13, that the connection is outside a transaction, and that the rows
/// of the changes have the columns of their tables. Fails if a table, an index or a view has the name of a table to
/// make. After an error the database is as it was, as long as the connection serves.
pub fn make_tables<S: Alter>(
    alloc: Global,
    conn: &mut Connection<S>,
    first: usize,
    changes: &[RowChange],
) -> Result<(), CommitError>
    requires place { first < TABLE_COUNT }
    requires autocommit { conn.old.in_transaction ≡ false }
    requires fit { (c : Change) → IsIn c changes.now → Fits c }
    ensures autocommit { conn.new.in_transaction ≡ false }
    ensures done { HasCleanDisk (state S.Store conn.new) → OnOk result (
        (rows : _) → Rests (state S.Store conn.old) → HoldsFirst first (state S.Store conn.old).now rows
        → Stands (state S.Store conn.new) (all_changed changes.now rows)
        × AddsTables first (state S.Store conn.old).now (state S.Store conn.new).now) }
    ensures unused { HasCleanDisk (state S.Store conn.new) → OnOk result (
        AreUnusedFrom first (state S.Store conn.old).now.schema) }
    ensures opens { HasCleanDisk (state S.Store conn.new) → OnOk result (IsTrue (state S.Store conn.old).is_open) }
    ensures kept { HasCleanDisk (state S.Store conn.new) → IsTrue (state S.Store conn.new).is_open → OnErr result (
        Rests (state S.Store conn.old) → Rests (state S.Store conn.new)
        × ((state S.Store conn.new).now ≡ (state S.Store conn.old).now)) }
    ensures was_open { HasCleanDisk (state S.Store conn.new) → IsTrue (state S.Store conn.new).is_open
        → IsTrue (state S.Store conn.old).is_open }
    ensures reaches { HasCleanDisk (state S.Store conn.new) → IfErr result (λ e. IsBefore e
        ⊎ IsTrue (state S.Store conn.old).is_open) }
    ensures before { IfErr result (λ e. IsBefore e
        → Survives (state S.Store conn.old) (state S.Store conn.new) (λ _. ⊥)) }
    ensures crash { Survives (state S.Store conn.old) (state S.Store conn.new)
        (IsFilled first (state S.Store conn.old) (all_changed changes.now)) }
{
    let mut tx = conn.transaction();
    if let Err(error) = fill(alloc, &mut tx, first, changes) {
        tx.rollback();
        return Err(CommitError::Before(error));
    }
    match tx.commit() {
        Ok(()) => Ok(()),
        Err(error) => Err(CommitError::Commit(error)),
    }
}
