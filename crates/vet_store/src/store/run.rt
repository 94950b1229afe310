//! Running a command: it is judged, its rows are written in one transaction, and then its change is installed.
//!
//! **The change is installed only once the rows are committed. A crash leaves the rows before the command or those
//! after it. A commit that fails shuts the store, since nobody can say then which of them a crash would leave.**
ghost use Rattle.std.specs.Prelude.{◌≡◌, ◌⊎◌, true, false, OnErr, IsTrue};
ghost use Rattle.sqlite.specs.Held.{state};
ghost use Rattle.sqlite.specs.State.{HasCleanDisk, Survives};
ghost use Rattle.vet_register.specs.Machine.{next};
ghost use Rattle.vet_rows.specs.RowsOf.{rows_of};
ghost use Rattle.vet_store.specs.Repeats.{IsReadable, RepeatsStay};
ghost use Rattle.vet_store.specs.Runs.{Fails, IsTurn};
ghost use Rattle.vet_store.specs.Beside.{OthersStay};
ghost use Rattle.vet_store.specs.Committed.{AreTreesBeside};
ghost use Rattle.vet_store.specs.Crash.{LeavesEither};
ghost use Rattle.vet_store.specs.Exact.{IsExact, WouldBeDone};
ghost use Rattle.vet_store.specs.Tied.{IsTied};

use super::Store;
use super::write::write_change;
use sqlite::Alter;
use std::alloc::Global;
use vet_base::refusal::Refusal;
use vet_graph::keeper::Keeper;
use vet_register::change::{Change, Prepared};
use vet_register::command::{Action, Command, Outcome};

impl<S: Alter, K: Keeper> Store<S, K> {
    /// Runs a command. After a refusal the register and the tables are as before. Everything else in the database stays
    /// in any case. Refused: what `Register::prepare` refuses; and `NoMemory` or `StoreRefused` by the store, but only
    /// for a command that would be done. If the commit failed, the store is shut. A shut store returns `StoreRefused`
    /// and changes nothing.
    pub fn run(&mut self, alloc: Global, command: &Command) -> Result<Outcome, Refusal>
        ensures turn { IsTurn self.old.register.state command.now result self.new.register.state }
        ensures repeats { RepeatsStay self.old.register.state command.now result self.new.register.state }
        ensures tables { IsTied (state S.Store self.new.conn) self.new.shut (rows_of self.new.register.state) }
        ensures others { OthersStay (state S.Store self.old.conn) (state S.Store self.new.conn) }
        ensures outside { self.new.conn.in_transaction ≡ false }
        ensures closed { IsTrue self.old.shut → (result ≡ Err Refusal.StoreRefused) × (self.new ≡ self.old) }
        ensures exact { self.old.shut ≡ false → IsExact self.old.register.state command.now result }
        ensures shuts { self.old.shut ≡ false → IsTrue self.new.shut → Fails result }
        ensures shuts_only { self.old.shut ≡ false → IsTrue self.new.shut
            → WouldBeDone self.old.register.state command.now }
        ensures before { OnErr result (self.new.shut ≡ false
            → Survives (state S.Store self.old.conn) (state S.Store self.new.conn) (λ _. ⊥)) }
        ensures crash { IsTrue (state S.Store self.old.conn).is_open
            → Survives (state S.Store self.old.conn) (state S.Store self.new.conn)
            (AreTreesBeside (state S.Store self.old.conn).now (rows_of (next self.old.register.state command.now))) }
        ensures leaves { self.old.shut ≡ false → HasCleanDisk (state S.Store self.new.conn)
            → LeavesEither (state S.Store self.new.conn) self.old.register.state command.now }
    {
        command_is_readable(command);
        let _sound = self.register().facts();
        self.run_once(alloc, command)
    }

    // The same, without the clauses `repeats` and `outside`.
    fn run_once(&mut self, alloc: Global, command: &Command) -> Result<Outcome, Refusal>
        ensures turn { IsTurn self.old.register.state command.now result self.new.register.state }
        ensures tables { IsTied (state S.Store self.new.conn) self.new.shut (rows_of self.new.register.state) }
        ensures others { OthersStay (state S.Store self.old.conn) (state S.Store self.new.conn) }
        ensures closed { IsTrue self.old.shut → (result ≡ Err Refusal.StoreRefused) × (self.new ≡ self.old) }
        ensures exact { self.old.shut ≡ false → IsExact self.old.register.state command.now result }
        ensures shuts { self.old.shut ≡ false → IsTrue self.new.shut → Fails result }
        ensures shuts_only { self.old.shut ≡ false → IsTrue self.new.shut
            → WouldBeDone self.old.register.state command.now }
        ensures before { OnErr result (self.new.shut ≡ false
            → Survives (state S.Store self.old.conn) (state S.Store self.new.conn) (λ _. ⊥)) }
        ensures crash { IsTrue (state S.Store self.old.conn).is_open
            → Survives (state S.Store self.old.conn) (state S.Store self.new.conn)
            (AreTreesBeside (state S.Store self.old.conn).now (rows_of (next self.old.register.state command.now))) }
        ensures leaves { self.old.shut ≡ false → HasCleanDisk (state S.Store self.new.conn)
            → LeavesEither (state S.Store self.new.conn) self.old.register.state command.now }
    {
        if self.shut {
            return Err(Refusal::StoreRefused);
        }
        match self.register.prepare(alloc, command) {
            Err(refusal) => Err(refusal),
            Ok(Prepared::Already(number)) => Ok(Outcome::Already(number)),
            Ok(Prepared::Change(change)) => {
                let conn = &mut self.conn;
                let shut = &mut self.shut;
                match write_change(alloc, conn, shut, &self.register, &change) {
                    Err(refusal) => {
                        drop_change(change);
                        Err(refusal)
                    }
                    Ok(()) => {
                        let outcome = change.outcome();
                        self.register.install(change);
                        Ok(outcome)
                    }
                }
            }
        }
    }
}

// Drops a change that was not written.
fn drop_change<K: Keeper>(_change: Change<K>) {}

// The content that a command imports, or puts in place of files, is what files can hold. Does nothing.
fn command_is_readable(command: &Command)
    ensures { IsReadable command.now.action }
{
    match &command.action {
        Action::ImportPeer(_, content) => {
            let _ = content.criteria();
        }
        Action::ReplaceFiles(files) => files.is_of_files(),
        _ => {}
    }
}
