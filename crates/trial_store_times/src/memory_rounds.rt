//! Commands to a register in files in memory.

use crate::stored_rounds::{imports_of, number_of};
use sqlite::Alter;
use std::time::{Clock, Instant};
use trial_times::commands::{add_other, drop_entry, set_peer};
use trial_values::fault::Fault;
use vet_base::limits::MOST_MOVES;
use vet_graph::keeper::Keeper;
use vet_register::command::{Command, Outcome};
use vet_store::memory::run_in_memory_files;
use vet_store::store::Store;

/// Makes a register in files in memory, imports each file of a text, and adds an entry and drops it in each round.
/// Prints what each command is and its nanoseconds.
pub fn run_memory<K: Keeper>(
    rt: &(impl Clock + AllocGlobal + Print),
    rounds: usize,
    text: &str,
) -> Result<(), Fault> {
    let imports = imports_of(rt.alloc(), text)?;
    let mut first = run_in_memory_files::<K>(rt.alloc(), MOST_MOVES, &[])?;
    run_rounds(rt, &mut first.store, rounds, imports.as_slice())
}

fn run_rounds<S: Alter, K: Keeper>(
    rt: &(impl Clock + AllocGlobal + Print),
    store: &mut Store<S, K>,
    rounds: usize,
    imports: &[Command],
) -> Result<(), Fault> {
    let peer = set_peer(rt.alloc())?;
    run_one(rt, store, "set-peer", &peer)?;
    for import in imports {
        run_one(rt, store, "import", import)?;
    }
    for round in 0..rounds {
        run_round(rt, store, round)?;
    }
    Ok(())
}

// Adds an entry and drops it.
fn run_round<S: Alter, K: Keeper>(
    rt: &(impl Clock + AllocGlobal + Print),
    store: &mut Store<S, K>,
    round: usize,
) -> Result<(), Fault> {
    let add = add_other(rt.alloc(), round)?;
    let outcome = run_one(rt, store, "add-entry", &add)?;
    let drop = drop_entry(number_of(outcome)?)?;
    run_one(rt, store, "drop-entry", &drop)?;
    Ok(())
}

// Runs a command, and prints what it took.
fn run_one<S: Alter, K: Keeper>(
    rt: &(impl Clock + AllocGlobal + Print),
    store: &mut Store<S, K>,
    what: &str,
    command: &Command,
) -> Result<Outcome, Fault> {
    let begun = Instant::now(rt)?;
    let outcome = store.run(rt.alloc(), command)?;
    let nanos = begun.elapsed(rt)?.as_nanos();
    println!(rt; "{what} {nanos}")?;
    Ok(outcome)
}
