//! Tables of the first version are taken over: they become those of the second.
//!
//! **One transaction makes the two tables that are missing, and replaces the row of `meta`. Its commit is the last
//! thing that can fail, so a crash leaves the tables of one version or the other, with the rows of the same state.**
ghost use Rattle.std.specs.Prelude.{◌≡◌, false, IfErr, IsTrue, OnErr, OnOk};
ghost use Rattle.sqlite.specs.Held.{state};
ghost use Rattle.sqlite.specs.State.{HasCleanDisk, Survives};
ghost use Rattle.vet_rows.specs.RowsOf.{rows_by, rows_of};
ghost use Rattle.vet_store.specs.Made.{IsAsBefore};
ghost use Rattle.vet_store.specs.Runs.{IsOfStore};
ghost use Rattle.vet_store.specs.Stands.{HoldsIn, Stands};
ghost use Rattle.vet_store.specs.TakenOver.{MayTakeOver, TookOver};
ghost use Rattle.vet_tables.specs.Read.{Rests};
ghost use Rattle.vet_tables.specs.declared.version.TablesVersion.TheVariants as versions;

use super::put_meta::put_meta;
use crate::change::{CommitError, make_tables};
use crate::refused::refusal_of;
use sqlite::{Alter, Connection};
use std::alloc::Global;
use vet_base::refusal::Refusal;
use vet_graph::keeper::Keeper;
use vet_register::register::Register;
use vet_tables::table_name::FIRST_TABLE_COUNT;

/// Takes over tables of the first version that have the rows of a register. Refused: `NoMemory` or `StoreRefused`; the
/// connection then shows what it showed before, as long as it serves.
pub(crate) fn take_over<S: Alter, K: Keeper>(
    alloc: Global,
    conn: &mut Connection<S>,
    register: &Register<K>,
) -> Result<(), Refusal>
    requires autocommit { conn.old.in_transaction ≡ false }
    ensures autocommit { conn.new.in_transaction ≡ false }
    ensures done { HasCleanDisk (state S.Store conn.new) → OnOk result (Rests (state S.Store conn.old)
        → HoldsIn versions.First (state S.Store conn.old).now (rows_by versions.First register.now.state)
        → Stands (state S.Store conn.new) (rows_of register.now.state)
        × TookOver (state S.Store conn.old) (state S.Store conn.new) register.now.state) }
    ensures kept { HasCleanDisk (state S.Store conn.new) → IsTrue (state S.Store conn.new).is_open → OnErr result (
        Rests (state S.Store conn.old) → IsAsBefore (state S.Store conn.old) (state S.Store conn.new)) }
    ensures was_open { HasCleanDisk (state S.Store conn.new) → IsTrue (state S.Store conn.new).is_open
        → IsTrue (state S.Store conn.old).is_open }
    ensures refused { IfErr result IsOfStore }
    ensures crash { Survives (state S.Store conn.old) (state S.Store conn.new)
        (MayTakeOver (state S.Store conn.old) register.now.state) }
{
    let changes = put_meta(alloc, register)?;
    match make_tables(alloc, conn, FIRST_TABLE_COUNT, changes.as_slice()) {
        Ok(()) => Ok(()),
        Err(CommitError::Before(error)) => Err(refusal_of(error)),
        Err(CommitError::Commit(error)) => Err(refusal_of(error)),
    }
}
