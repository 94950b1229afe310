//! A store is made in a database that has no register yet.
ghost use Rattle.std.specs.Prelude.{◌≡◌, ◌<◌, ◌≤◌, false, IfErr, IfOk, IsErrAnd, IsTrue};
ghost use Rattle.std.specs.Prelude.{MatchResult, OnErr, OnOk, ℕ};
ghost use Rattle.sqlite.specs.Held.{state};
ghost use Rattle.sqlite.specs.State.{HasCleanDisk, Survives};
ghost use Rattle.vet_register.specs.State.{start};
ghost use Rattle.vet_base.specs.Items.{IsIn};
ghost use Rattle.vet_rows.specs.FitChanges.{Fits};
ghost use Rattle.vet_rows.specs.RowChanges.{all_changed};
ghost use Rattle.vet_rows.specs.RowsOf.{rows_of};
ghost use Rattle.vet_rows.specs.declared.row_change.RowChange.{RowChange as Change};
ghost use Rattle.vet_store.specs.Made.{IsAsBefore, IsMade};
ghost use Rattle.vet_tables.specs.Cells.{no_rows};
ghost use Rattle.vet_tables.specs.Extends.{SparesOthers};
ghost use Rattle.vet_tables.specs.Free.{AreFree};
ghost use Rattle.vet_store.specs.Runs.{IsOfStore};
ghost use Rattle.vet_store.specs.Stands.{Stands};
ghost use Rattle.vet_tables.specs.Read.{Rests};
ghost use Rattle.vet_store.specs.Tied.{IsTied};

use super::Store;
use super::put_meta::put_meta;
use crate::change::{CommitError, make_tables};
use crate::refused::{Refused, refusal_of};
use sqlite::{Alter, Connection};
use std::alloc::Global;
use vet_base::limits::MOST_MOVES;
use vet_base::refusal::Refusal;
use vet_demand::laws::nothing_is_demanded;
use vet_graph::keeper::Keeper;
use vet_register::register::Register;
use vet_rows::row_change::RowChange;
use vet_tables::find::has_name_taken;

impl<S: Alter + Drop, K: Keeper> Store<S, K> {
    /// Makes the tables of an empty register, beside whatever else the database has. Asks for a connection outside a
    /// transaction, and a limit of 1 to 1,000,000 moves. A refusal gives the connection back, and the database is as it
    /// was. Refused: `NoMemory`, `StoreRefused`, or `NotARegister` if a table, an index or a view has the name of one
    /// of the tables, or a foreign key refers to it.
    pub fn create(
        alloc: Global,
        conn: Connection<S>,
        moves_limit: usize,
    ) -> Result<Store<S, K>, Refused<S>>
        requires limit { (0 < moves_limit) × (moves_limit ≤ MOST_MOVES) }
        requires autocommit { conn.in_transaction ≡ false }
        ensures start { IfOk result (λ s. s.register.state ≡ start moves_limit) }
        ensures tables { IfOk result (λ s. (s.shut ≡ false)
            × IsTied (state S.Store s.conn) s.shut (rows_of s.register.state)) }
        ensures outside { IfOk result (λ s. s.conn.in_transaction ≡ false) }
        ensures others { IfOk result (λ s. HasCleanDisk (state S.Store s.conn)
            → SparesOthers (state S.Store conn).now (state S.Store s.conn).now) }
        ensures taken { (AreFree (state S.Store conn).now.schema → ⊥)
            → IsErrAnd result (λ e. (e.refusal ≡ Refusal.NotARegister) × (e.conn ≡ conn)) }
        ensures refused { AreFree (state S.Store conn).now.schema → IfErr result (λ e. IsOfStore e.refusal) }
        ensures autocommit { IfErr result (λ e. e.conn.in_transaction ≡ false) }
        ensures as_before { IfErr result (λ e. HasCleanDisk (state S.Store e.conn)
            → IsTrue (state S.Store e.conn).is_open → IsAsBefore (state S.Store conn) (state S.Store e.conn)) }
        ensures crash { MatchResult result
            (λ s. Survives (state S.Store conn) (state S.Store s.conn)
            (IsMade (state S.Store conn) (rows_of (start moves_limit))))
            (λ e. Survives (state S.Store conn) (state S.Store e.conn)
            (IsMade (state S.Store conn) (rows_of (start moves_limit)))) }
    {
        let _rests = conn.is_autocommit();
        if has_name_taken(conn.schema(), 0) {
            let refusal = Refusal::NotARegister;
            return Err(Refused { refusal, conn });
        }
        let register = match Register::new(alloc, moves_limit) {
            Ok(register) => register,
            Err(refusal) => return Err(Refused { refusal, conn }),
        };
        let mut conn = conn;
        match write_start(alloc, &mut conn, &register) {
            Ok(()) => Ok(Store {
                conn,
                register,
                shut: false,
            }),
            Err(refusal) => Err(Refused { refusal, conn }),
        }
    }
}

// Makes the tables, and writes the rows of an empty register.
fn write_start<S: Alter, K: Keeper>(
    alloc: Global,
    conn: &mut Connection<S>,
    register: &Register<K>,
) -> Result<(), Refusal>
    requires start { (limit : ℕ) × (register.now.state ≡ start limit) }
    requires autocommit { conn.old.in_transaction ≡ false }
    requires free { AreFree (state S.Store conn.old).now.schema }
    ensures autocommit { conn.new.in_transaction ≡ false }
    ensures done { HasCleanDisk (state S.Store conn.new) → OnOk result (
        Stands (state S.Store conn.new) (rows_of register.now.state)
        × SparesOthers (state S.Store conn.old).now (state S.Store conn.new).now) }
    ensures kept { HasCleanDisk (state S.Store conn.new) → IsTrue (state S.Store conn.new).is_open
        → OnErr result (Rests (state S.Store conn.new)
        × ((state S.Store conn.new).now ≡ (state S.Store conn.old).now)) }
    ensures refused { IfErr result IsOfStore }
    ensures crash { Survives (state S.Store conn.old) (state S.Store conn.new)
        (IsMade (state S.Store conn.old) (rows_of register.now.state)) }
{
    let _rests = conn.is_autocommit();
    let _live = conn.schema();
    let changes = start_changes(alloc, register)?;
    match make_tables(alloc, conn, 0, changes.as_slice()) {
        Ok(()) => Ok(()),
        Err(CommitError::Before(error)) => Err(refusal_of(error)),
        Err(CommitError::Commit(error)) => Err(refusal_of(error)),
    }
}

// The changes that turn empty tables into those of an empty register: they put its one row.
fn start_changes<K: Keeper>(
    alloc: Global,
    register: &Register<K>,
) -> Result<Vec<RowChange>, Refusal>
    requires { (limit : ℕ) × (register.now.state ≡ start limit) }
    ensures ok { IfOk result (λ changes. all_changed changes.items no_rows ≡ rows_of register.now.state) }
    ensures fit { IfOk result (λ changes. (c : Change) → IsIn c changes.items → Fits c) }
    ensures memory { IfErr result (λ e. e ≡ Refusal.NoMemory) }
{
    nothing_is_demanded();
    Ok(put_meta(alloc, register)?)
}
