//! The time of a command.

use std::alloc::Global;
use std::time::{Clock, Instant};
use trial_values::fault::Fault;
use vet_graph::keeper::Keeper;
use vet_register::command::{Command, Outcome};
use vet_register::register::Register;

/// Runs a command, unless it could not be made, and prints how long that took and its outcome.
pub fn timed_once<K: Keeper>(
    rt: &(impl Clock + AllocGlobal + Print),
    register: &mut Register<K>,
    what: &str,
    made: Result<Command, Fault>,
) -> Result<(), Fault> {
    timed(rt, register, what, &made?)
}

/// Runs a command, unless it could not be made.
pub fn done<K: Keeper>(
    alloc: Global,
    register: &mut Register<K>,
    made: Result<Command, Fault>,
) -> Result<(), Fault> {
    register.run(alloc, &made?)?;
    Ok(())
}

/// Runs a command, and prints how long that took and its outcome.
pub fn timed<K: Keeper>(
    rt: &(impl Clock + AllocGlobal + Print),
    register: &mut Register<K>,
    what: &str,
    command: &Command,
) -> Result<(), Fault> {
    let begun = Instant::now(rt)?;
    let outcome = register.run(rt.alloc(), command)?;
    let nanos = begun.elapsed(rt)?.as_nanos();
    match outcome {
        Outcome::Done { moves, .. } => println!(rt; "{what} {nanos} done {moves}")?,
        Outcome::Already(_) => println!(rt; "{what} {nanos} already")?,
    }
    Ok(())
}
