//! Making a store and running the first commands on it.
//!
//! **They leave the state of the machine after them, from its first state**, and the headline over commands holds.
ghost use Rattle.std.specs.Prelude.{◌≡◌, ◌<◌, ◌≤◌, ◌⊎◌, IfErr, IfOk, IsErrAnd, IsTrue, false, length};
ghost use Rattle.sqlite.specs.Held.{state};
ghost use Rattle.sqlite.specs.State.{HasCleanDisk, Survives};
ghost use Rattle.vet_register.specs.Sound.{IsBalanced};
ghost use Rattle.vet_register.specs.State.{start};
ghost use Rattle.vet_rows.specs.RowsOf.{rows_of};
ghost use Rattle.vet_store.specs.Classes.{AddsUp, HasClassesOfChains};
ghost use Rattle.vet_store.specs.Crash.{LeavesRun};
ghost use Rattle.vet_store.specs.Exact.{IsExactTurn};
ghost use Rattle.vet_store.specs.Made.{HasMade, IsAsBefore, IsMade};
ghost use Rattle.vet_tables.specs.Extends.{SparesOthers};
ghost use Rattle.vet_tables.specs.Free.{AreFree};
ghost use Rattle.vet_store.specs.Repeats.{IsTurnWithRepeats};
ghost use Rattle.vet_store.specs.Runs.{Each, IsOfDone, IsOfStore, Ran};
ghost use Rattle.vet_store.specs.Tied.{IsTied};

use super::Store;
use crate::refused::Refused;
use sqlite::{Alter, Connection};
use std::alloc::Global;
use vet_base::limits::MOST_MOVES;
use vet_base::refusal::Refusal;
use vet_graph::keeper::Keeper;
use vet_register::command::{Command, Outcome};

/// A store that was made, and the outcomes of the first commands.
pub struct FirstRun<S: Alter, K: Keeper> {
    pub store: Store<S, K>,
    pub answers: Vec<Result<Outcome, Refusal>>,
}

impl<S: Alter + Drop, K: Keeper> Drop for FirstRun<S, K> {
    fn drop(self) {
        let FirstRun {
            store: _,
            answers: _,
        } = self;
    }
}

impl<S: Alter + Drop, K: Keeper> Store<S, K> {
    /// Makes a store and runs commands on it. Asks for what `create` asks. Refused: what `create` refuses, with the
    /// database as it was; and `NoMemory` with nothing run, after which the database may have an empty register.
    pub fn create_and_run(
        alloc: Global,
        conn: Connection<S>,
        moves_limit: usize,
        commands: &[Command],
    ) -> Result<FirstRun<S, K>, Refused<S>>
        requires limit { (0 < moves_limit) × (moves_limit ≤ MOST_MOVES) }
        requires autocommit { conn.in_transaction ≡ false }
        ensures ran { IfOk result (λ r.
            Ran (start moves_limit) commands.now r.answers.items r.store.register.state) }
        ensures kept { IfOk result (λ r.
            IsOfDone (start moves_limit) commands.now r.answers.items r.store.register.state) }
        ensures answered { IfOk result (λ r. length r.answers.items ≡ length commands.now) }
        ensures classes { IfOk result (λ r. HasClassesOfChains r.store.register.state) }
        ensures adds_up { IfOk result (λ r. AddsUp r.store.register.state) }
        ensures balance { IfOk result (λ r. IsBalanced r.store.register.state) }
        ensures repeats { IfOk result (λ r. Each IsTurnWithRepeats (start moves_limit) commands.now r.answers.items
            r.store.register.state) }
        ensures exact { IfOk result (λ r. r.store.shut ≡ false → Each IsExactTurn (start moves_limit) commands.now
            r.answers.items r.store.register.state) }
        ensures tables { IfOk result (λ r.
            IsTied (state S.Store r.store.conn) r.store.shut (rows_of r.store.register.state)) }
        ensures others { IfOk result (λ r. HasCleanDisk (state S.Store r.store.conn)
            → IsTrue (state S.Store r.store.conn).is_open
            → SparesOthers (state S.Store conn).now (state S.Store r.store.conn).now) }
        ensures leaves { IfOk result (λ r. LeavesRun (state S.Store r.store.conn) r.store.shut (start moves_limit)
            commands.now r.answers.items r.store.register.state) }
        ensures taken { (AreFree (state S.Store conn).now.schema → ⊥)
            → IsErrAnd result (λ e. (e.refusal ≡ Refusal.NotARegister) × (e.conn ≡ conn)) }
        ensures refused { AreFree (state S.Store conn).now.schema → IfErr result (λ e. IsOfStore e.refusal) }
        ensures outside { IfOk result (λ r. r.store.conn.in_transaction ≡ false) }
        ensures autocommit { IfErr result (λ e. e.conn.in_transaction ≡ false) }
        ensures stands { IfErr result (λ e. HasCleanDisk (state S.Store e.conn)
            → IsTrue (state S.Store e.conn).is_open → IsAsBefore (state S.Store conn) (state S.Store e.conn)
            ⊎ ((e.refusal ≡ Refusal.NoMemory)
            × HasMade (state S.Store conn) (state S.Store e.conn) (rows_of (start moves_limit)))) }
        ensures crash { IfErr result (λ e. Survives (state S.Store conn) (state S.Store e.conn)
            (IsMade (state S.Store conn) (rows_of (start moves_limit)))) }
    {
        let mut store = match Store::create(alloc, conn, moves_limit) {
            Ok(store) => store,
            Err(refused) => return Err(refused),
        };
        match store.run_all(alloc, commands) {
            Ok(answers) => Ok(FirstRun { store, answers }),
            Err(refusal) => Err(Refused {
                refusal,
                conn: store.close(),
            }),
        }
    }
}
