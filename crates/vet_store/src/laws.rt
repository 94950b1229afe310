//! Laws of registers and of runs, for callers to cite: each law is a function that does nothing.
//!
//! **Whatever a register holds, each demanded pair has the class that chains give it. Two runs one after the other are
//! one run of the commands of both. Each leaves the state of the machine after only the commands that were done. After
//! a crash the next open finds the state before the command or after it, and the state of the register if the store was
//! not shut.**
ghost use Rattle.vet_register.specs.Sound.{IsBalanced};
ghost use Rattle.vet_store.specs.Classes.{AddsUp, HasClassesOfChains};
ghost use Rattle.vet_store.specs.CrashLaws.{CreateLeaves, OpenLeaves, RunLeaves, TiedLeaves};
ghost use Rattle.vet_store.specs.RunLaws.{RunsKeepDone, TwoRunsAreOne};

use sqlite::Alter;
use vet_demand::laws::{demand_is_least, nothing_is_demanded};
use vet_graph::keeper::Keeper;
use vet_graph::laws::each_pair_has_its_class;
use vet_register::register::Register;

/// The classes of a register are those that chains of entries give the least demand, they add up to it, and they are
/// balanced with the moves. Does nothing.
pub fn classes_are_of_chains<K: Keeper>(register: &Register<K>)
    ensures classes { HasClassesOfChains register.now.state }
    ensures adds_up { AddsUp register.now.state }
    ensures balance { IsBalanced register.now.state }
{
    each_pair_has_its_class();
    demand_is_least();
    let _ = register.counts();
}

/// A run, and another from the state that it left, are one run of the commands of both. Does nothing.
pub fn two_runs_are_one()
    ensures { TwoRunsAreOne }
{}

/// A run leaves the state of the machine after only the commands that were done, with the same outcomes. Does nothing.
pub fn runs_keep_done()
    ensures { RunsKeepDone }
{}

/// After `Store::create`, if no name of a table was taken, a crash leaves the database as it was, so that `create` may
/// be called again, or one that has the first state beside all that was there. This holds if, when `create` began, a
/// crash would have left what the connection showed. Does nothing.
pub fn create_leaves_nothing_or_the_first_state<S: Alter>()
    ensures { CreateLeaves S.Store }
{
    nothing_is_demanded();
}

/// After `Store::open` a crash leaves the same database, with the same state as before, or none if there was none; or
/// one whose tables of the first version were taken over, with the same state. This holds if, when `open` began, a
/// crash would have left what the connection showed. Does nothing.
pub fn open_leaves_the_same_state<S: Alter>()
    ensures { OpenLeaves S.Store }
{}

/// After `Store::run` a crash leaves a database that has the state before the command or the state after it. Does
/// nothing.
pub fn run_leaves_the_state_before_or_after<S: Alter>()
    ensures { RunLeaves S.Store }
{}

/// While a store is not shut, a crash leaves a database that has the state of its register, and no state with other
/// rows. As long as the connection serves, it is the database that the connection shows. Does nothing.
pub fn a_crash_leaves_the_registers_state<S: Alter>()
    ensures { TiedLeaves S.Store }
{}
