//! Closing a store and opening it again on its connection.
//!
//! **It has the state that was closed, and works like any store that was opened.** The connection of the closed store
//! shows the rows of its state, and `open` makes that state and no other of tables with these rows. A refusal loses
//! nothing: the tables still have these rows, also after a crash.
ghost use Rattle.std.specs.Prelude.{◌≡◌, ◌⊎◌, false, IfErr, IfOk, IsTrue, MatchResult};
ghost use Rattle.sqlite.specs.Held.{state};
ghost use Rattle.sqlite.specs.State.{HasCleanDisk, IsUnchanged, Survives};
ghost use Rattle.vet_register.specs.Sound.{IsSound};
ghost use Rattle.vet_register.specs.State as machine;
ghost use Rattle.vet_rows.specs.HeldState.{IsHeldState};
ghost use Rattle.vet_rows.specs.RowsOf.{rows_of};
ghost use Rattle.vet_store.specs.Made.{IsAsBefore};
ghost use Rattle.vet_store.specs.Opened.{IsStored};
ghost use Rattle.vet_store.specs.Reopened.{LosesNothing};
ghost use Rattle.vet_store.specs.Runs.{IsOfStore};
ghost use Rattle.vet_store.specs.Stands.{Holds};
ghost use Rattle.vet_store.specs.Tied.{IsTied};

use super::Store;
use crate::refused::Refused;
use sqlite::Alter;
use std::alloc::Global;
use vet_base::refusal::Refusal;
use vet_graph::keeper::Keeper;
use vet_rows::held_register::register_is_held;

impl<S: Alter + Drop, K: Keeper> Store<S, K> {
    /// Closes the store, and opens it again on its connection. Nothing is written. Asks for a store that is not shut. A
    /// refusal gives the connection back. Refused: `NoMemory`, `StoreRefused`, or `NotARegister` if the connection no
    /// longer serves or its disk is not clean.
    pub fn reopen(self, alloc: Global) -> Result<Store<S, K>, Refused<S>>
        requires { self.shut ≡ false }
        ensures same { IfOk result (λ s. HasCleanDisk (state S.Store s.conn)
            → s.register.state ≡ self.register.state) }
        ensures found { IfOk result (λ s. HasCleanDisk (state S.Store s.conn)
            → Holds (state S.Store self.conn).now (rows_of s.register.state)) }
        ensures sound { IfOk result (λ s. IsSound s.register.state) }
        ensures held { IfOk result (λ s. IsHeldState s.register.state) }
        ensures only { IfOk result (λ s. HasCleanDisk (state S.Store s.conn)
            → (t : machine.State) → IsStored (state S.Store self.conn).now t → s.register.state ≡ t) }
        ensures tables { IfOk result (λ s. (s.shut ≡ false)
            × IsTied (state S.Store s.conn) s.shut (rows_of s.register.state)) }
        ensures outside { IfOk result (λ s. s.conn.in_transaction ≡ false) }
        ensures unchanged { IfOk result (λ s. HasCleanDisk (state S.Store s.conn)
            → IsUnchanged (state S.Store self.conn) (state S.Store s.conn)) }
        ensures refused { IfErr result (λ e. HasCleanDisk (state S.Store e.conn)
            → IsTrue (state S.Store e.conn).is_open → IsOfStore e.refusal) }
        ensures listed { IfErr result (λ e. IsOfStore e.refusal ⊎ (e.refusal ≡ Refusal.NotARegister)) }
        ensures autocommit { IfErr result (λ e. e.conn.in_transaction ≡ false) }
        ensures as_before { IfErr result (λ e. HasCleanDisk (state S.Store e.conn)
            → IsTrue (state S.Store e.conn).is_open → IsAsBefore (state S.Store self.conn) (state S.Store e.conn)) }
        ensures was_open { IfErr result (λ e. HasCleanDisk (state S.Store e.conn)
            → IsTrue (state S.Store e.conn).is_open → IsTrue (state S.Store self.conn).is_open) }
        ensures lost { IfErr result (λ e. LosesNothing (state S.Store e.conn) self.register.state) }
        ensures crash { MatchResult result
            (λ s. Survives (state S.Store self.conn) (state S.Store s.conn) (λ _. ⊥))
            (λ e. Survives (state S.Store self.conn) (state S.Store e.conn) (λ _. ⊥)) }
    {
        register_is_held(self.register());
        let _sound = self.register().facts();
        match Store::open(alloc, self.close()) {
            Ok(store) => Ok(store),
            Err(refused) => Err(refused),
        }
    }
}
