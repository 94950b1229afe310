//! Running commands one after the other: **the headline over commands**.
//!
//! **Whatever commands are run, the register has the state of the machine after only the commands that were done, and
//! each has the same outcome there. Each demanded pair has exactly the class that chains of entries give it, the five
//! classes add up to the demand, and each class has the pairs that it had at first, plus arrivals, minus departures. An
//! import, or files, whose content is already held in their turn change nothing. The tables have the register's rows.**
//!
//! The tables alone rest on a premise: the disk returned what was written, and the connection serves. On the same disk
//! **a crash leaves the rows of the last state. If the commit of a command failed, which shuts the store, it leaves
//! these, or those of the state after that command.**
ghost use Rattle.std.specs.Prelude.{◌≡◌, false, IfOk, IfErr, IsTrue, OnErr, length};
ghost use Rattle.sqlite.specs.Held.{state};
ghost use Rattle.vet_register.specs.Sound.{IsBalanced};
ghost use Rattle.vet_rows.specs.RowsOf.{rows_of};
ghost use Rattle.vet_store.specs.Beside.{OthersStay};
ghost use Rattle.vet_store.specs.Classes.{AddsUp, HasClassesOfChains};
ghost use Rattle.vet_store.specs.Crash.{LeavesRun};
ghost use Rattle.vet_store.specs.Exact.{IsExactTurn};
ghost use Rattle.vet_store.specs.Repeats.{IsTurnWithRepeats};
ghost use Rattle.vet_store.specs.Runs.{AreRefused, Each, IsOfDone, Ran};
ghost use Rattle.vet_store.specs.Tied.{IsTied};

use super::Store;
use crate::laws::classes_are_of_chains;
use sqlite::Alter;
use std::alloc::Global;
use vet_base::refusal::Refusal;
use vet_graph::keeper::Keeper;
use vet_register::command::{Command, Outcome};

impl<S: Alter, K: Keeper> Store<S, K> {
    /// Runs commands one after the other, whatever the outcome of each, and returns these outcomes: each is the verdict
    /// in the state of its turn, unless memory ran out or the store refused it. A shut store returns `StoreRefused` for
    /// each. Room for the outcomes is taken first. Refused, with nothing run: `NoMemory`.
    pub fn run_all(
        &mut self,
        alloc: Global,
        commands: &[Command],
    ) -> Result<Vec<Result<Outcome, Refusal>>, Refusal>
        ensures ran { IfOk result (λ answers.
            Ran self.old.register.state commands.now answers.items self.new.register.state) }
        ensures answered { IfOk result (λ answers. length answers.items ≡ length commands.now) }
        ensures kept { IfOk result (λ answers.
            IsOfDone self.old.register.state commands.now answers.items self.new.register.state) }
        ensures classes { HasClassesOfChains self.new.register.state }
        ensures adds_up { AddsUp self.new.register.state }
        ensures balance { IsBalanced self.new.register.state }
        ensures repeats { IfOk result (λ answers.
            Each IsTurnWithRepeats self.old.register.state commands.now answers.items self.new.register.state) }
        ensures tables { IsTied (state S.Store self.new.conn) self.new.shut (rows_of self.new.register.state) }
        ensures outside { self.new.conn.in_transaction ≡ false }
        ensures memory { IfErr result (λ e. e ≡ Refusal.NoMemory) }
        ensures err { OnErr result (self.new ≡ self.old) }
        ensures others { OthersStay (state S.Store self.old.conn) (state S.Store self.new.conn) }
        ensures closed { IsTrue self.old.shut → self.new ≡ self.old }
        ensures refused { IsTrue self.old.shut → IfOk result (λ answers. AreRefused answers.items) }
        ensures exact { IfOk result (λ answers. self.old.shut ≡ false → self.new.shut ≡ false
            → Each IsExactTurn self.old.register.state commands.now answers.items self.new.register.state) }
        ensures leaves { IfOk result (λ answers. self.old.shut ≡ false
            → LeavesRun (state S.Store self.new.conn) self.new.shut self.old.register.state commands.now answers.items
            self.new.register.state) }
    {
        let answers = self.run_each(alloc, commands);
        self.tables_are_of_register();
        classes_are_of_chains(self.register());
        answers
    }

    // The same, turn by turn.
    fn run_each(
        &mut self,
        alloc: Global,
        commands: &[Command],
    ) -> Result<Vec<Result<Outcome, Refusal>>, Refusal>
        ensures turns { IfOk result (λ answers.
            Each IsTurnWithRepeats self.old.register.state commands.now answers.items self.new.register.state) }
        ensures memory { IfErr result (λ e. e ≡ Refusal.NoMemory) }
        ensures err { OnErr result (self.new ≡ self.old) }
        ensures others { OthersStay (state S.Store self.old.conn) (state S.Store self.new.conn) }
        ensures closed { IsTrue self.old.shut → self.new ≡ self.old }
        ensures refused { IsTrue self.old.shut → IfOk result (λ answers. AreRefused answers.items) }
        ensures exact { IfOk result (λ answers. self.old.shut ≡ false → self.new.shut ≡ false
            → Each IsExactTurn self.old.register.state commands.now answers.items self.new.register.state) }
        ensures leaves { IfOk result (λ answers. self.old.shut ≡ false
            → LeavesRun (state S.Store self.new.conn) self.new.shut self.old.register.state commands.now answers.items
            self.new.register.state) }
    {
        self.tables_are_of_register();
        let mut answers = Vec::new(alloc);
        answers.reserve(commands.len())?;
        for command in commands {
            let answer = self.run(alloc, command);
            answers.push_reserved(answer);
        }
        Ok(answers)
    }
}
