//! Writing a change to the tables.
ghost use Rattle.std.specs.Prelude.{◌≡◌, ◌⊎◌, true, false, OnOk, OnErr, IfErr, IsTrue};
ghost use Rattle.sqlite.specs.Held.{state};
ghost use Rattle.sqlite.specs.State.{HasCleanDisk, Survives};
ghost use Rattle.vet_register.specs.Machine.{CommandValue, next};
ghost use Rattle.vet_register.specs.RegisterView.{IsPrepared};
ghost use Rattle.vet_rows.specs.RowsOf.{rows_of};
ghost use Rattle.vet_tables.specs.Contents.{KeepsOthers};
ghost use Rattle.vet_store.specs.Runs.{IsOfStore};
ghost use Rattle.vet_store.specs.Stands.{Stands};
ghost use Rattle.vet_store.specs.Tied.{IsWritten};

use crate::change::{CommitError, commit_changes};
use crate::refused::refusal_of;
use sqlite::{Alter, Connection};
use std::alloc::Global;
use vet_base::refusal::Refusal;
use vet_graph::keeper::Keeper;
use vet_register::change::Change;
use vet_register::register::Register;
use vet_rows::row_changes::row_changes;

/// Writes the changes of rows of a prepared change, in one transaction. If the commit fails, the store is shut.
/// Refused: `NoMemory` or `StoreRefused`, with the tables as before.
pub(crate) fn write_change<S: Alter, K: Keeper>(
    alloc: Global,
    conn: &mut Connection<S>,
    shut: &mut bool,
    register: &Register<K>,
    change: &Change<K>,
) -> Result<(), Refusal>
    requires prepared { (command : CommandValue) × IsPrepared K.keeping register.now command change.now }
    requires autocommit { conn.old.in_transaction ≡ false }
    requires is_not_shut { shut.old ≡ false }
    ensures autocommit { conn.new.in_transaction ≡ false }
    ensures done { OnOk result (shut.new ≡ false) }
    ensures written { (command : CommandValue) → IsPrepared K.keeping register.now command change.now
        → HasCleanDisk (state S.Store conn.new) → OnOk result (
        Stands (state S.Store conn.old) (rows_of register.now.state)
        → Stands (state S.Store conn.new) (rows_of (next register.now.state command))) }
    ensures kept { HasCleanDisk (state S.Store conn.new) → IsTrue (state S.Store conn.new).is_open
        → OnErr result (Stands (state S.Store conn.old) (rows_of register.now.state)
        → Stands (state S.Store conn.new) (rows_of register.now.state)) }
    ensures others { HasCleanDisk (state S.Store conn.new) → IsTrue (state S.Store conn.new).is_open
        → Stands (state S.Store conn.old) (rows_of register.now.state)
        → KeepsOthers (state S.Store conn.old).now (state S.Store conn.new).now }
    ensures opens { HasCleanDisk (state S.Store conn.new) → OnOk result (IsTrue (state S.Store conn.old).is_open) }
    ensures was_open { HasCleanDisk (state S.Store conn.new) → IsTrue (state S.Store conn.new).is_open
        → IsTrue (state S.Store conn.old).is_open }
    ensures reaches { HasCleanDisk (state S.Store conn.new) → IsTrue shut.new
        → IsTrue (state S.Store conn.old).is_open }
    ensures refused { IfErr result IsOfStore }
    ensures before { OnErr result (shut.new ≡ false
        → Survives (state S.Store conn.old) (state S.Store conn.new) (λ _. ⊥)) }
    ensures crash { (command : CommandValue) → IsPrepared K.keeping register.now command change.now
        → Survives (state S.Store conn.old) (state S.Store conn.new)
        (IsWritten (state S.Store conn.old) (rows_of register.now.state) (rows_of (next register.now.state command))) }
{
    let changes = row_changes(alloc, register, change)?;
    match commit_changes(alloc, conn, changes.as_slice()) {
        Ok(()) => Ok(()),
        Err(CommitError::Before(error)) => Err(refusal_of(error)),
        Err(CommitError::Commit(error)) => {
            *shut = true;
            Err(refusal_of(error))
        }
    }
}
