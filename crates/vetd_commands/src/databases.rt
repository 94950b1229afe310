//! Connections to databases, by path.
ghost use Rattle.sqlite.specs.Held.{Held};
ghost use Rattle.std.specs.Prelude.{◌≡◌, ◌⊎◌, IfErr, IfOk, List, Result, false, ℕ};
ghost use Rattle.vet_base.specs.declared.refusal.Refusal.{Refusal as RefusalValue};
ghost use Rattle.vet_store.specs.Runs.{IsOfStore};

use sqlite::{Alter, Connection};
use vet_base::refusal::Refusal;
use vet_requests::io_fault::IoFault;

/// The result of a run: its status or fault, and the connection to the database, if one was opened.
pub struct DatabaseRun<S: Alter> {
    pub status: Result<u8, IoFault>,
    pub conn: Option<Connection<S>>,
}

impl<S: Alter + Drop> Drop for DatabaseRun<S> {
    fn drop(self) {
        let DatabaseRun { status: _, conn: _ } = self;
    }
}

/// Gives connections to databases.
pub trait Databases<S: Alter> {
    /// The results that a path may give: a connection, or the refusal if there is none.
    ghost may_give: { Self → List ℕ → Result (Held S) RefusalValue → Type 0 };

    /// The same if a database must already be there.
    ghost may_find: { Self → List ℕ → Result (Held S) RefusalValue → Type 0 };

    /// A connection to the database at a path, outside a transaction. If there is nothing at the path, an empty
    /// database is made. Refused: `NoMemory`; `StoreRefused` if no database can be opened there.
    fn connect(&mut self, path: &str) -> Result<Connection<S>, Refusal>
        ensures given { may_give self.old path.now result }
        ensures outside { IfOk result (λ conn. conn.in_transaction ≡ false) }
        ensures refused { IfErr result IsOfStore };

    /// A connection to the database that is already at a path, outside a transaction. Nothing is made. Refused:
    /// `NotARegister` if there is no file at the path, or a file of at most one byte; otherwise as by `connect`.
    fn find(&mut self, path: &str) -> Result<Connection<S>, Refusal>
        ensures found { may_find self.old path.now result }
        ensures outside { IfOk result (λ conn. conn.in_transaction ≡ false) }
        ensures refused { IfErr result (λ e. IsOfStore e ⊎ (e ≡ Refusal.NotARegister)) };
}
