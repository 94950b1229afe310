//! The rounds of imports.

use crate::clock::{done, timed, timed_once};
use crate::commands::{
    add_demanded, add_other, drop_peer, import_peer, load_project, set_other_peer, set_peer,
};
use crate::contents::contents_of;
use std::alloc::Global;
use std::io;
use std::time::Clock;
use trial_values::fault::Fault;
use vet_base::limits::MOST_MOVES;
use vet_entries::peer_content::PeerContent;
use vet_graph::keeper::Keeper;
use vet_register::command::Command;
use vet_register::register::Register;

/// How much is to be timed of imports.
#[derive(Clone, Copy)]
pub struct Sizes {
    /// How many rounds.
    pub rounds: usize,
    /// How many own entries, and how many demanded pairs.
    pub own: usize,
}

/// Prints how much each file of a text holds, and times the rounds of commands.
pub fn run_imports<K: Keeper>(
    rt: &(impl Clock + AllocGlobal + Print),
    sizes: Sizes,
    text: &str,
) -> Result<(), Fault> {
    let contents = contents_of(rt.alloc(), text)?;
    print_counts(rt, contents.as_slice())?;
    if sizes.rounds == 0 {
        return Ok(());
    }
    let imports = imports_of(rt.alloc(), contents)?;
    run_rounds::<K>(rt, sizes, imports.as_slice())
}

fn run_rounds<K: Keeper>(
    rt: &(impl Clock + AllocGlobal + Print),
    sizes: Sizes,
    imports: &[Command],
) -> Result<(), Fault> {
    let mut register = register_of::<K>(rt.alloc(), sizes.own)?;
    for round in 0..sizes.rounds {
        run_round(rt, &mut register, round, imports)?;
    }
    Ok(())
}

fn print_counts(
    rt: &(impl Clock + AllocGlobal + Print),
    contents: &[PeerContent],
) -> io::Result<()> {
    for content in contents {
        let count = content.entries().len();
        println!(rt; "read {count}")?;
    }
    Ok(())
}

fn imports_of(alloc: Global, contents: Vec<PeerContent>) -> Result<Vec<Command>, Fault> {
    let mut imports = Vec::new(alloc);
    for content in contents {
        imports.push(import_peer(alloc, content)?)?;
    }
    Ok(imports)
}

// A register of one demanded pair and one own entry of each of some packages.
fn register_of<K: Keeper>(alloc: Global, own: usize) -> Result<Register<K>, Fault> {
    let mut register = Register::new(alloc, MOST_MOVES)?;
    add_entries(alloc, &mut register, own)?;
    Ok(register)
}

fn add_entries<K: Keeper>(
    alloc: Global,
    register: &mut Register<K>,
    own: usize,
) -> Result<(), Fault> {
    done(alloc, register, load_project(alloc, own))?;
    for place in 0..own {
        done(alloc, register, add_demanded(alloc, place))?;
    }
    Ok(())
}

fn run_round<K: Keeper>(
    rt: &(impl Clock + AllocGlobal + Print),
    register: &mut Register<K>,
    round: usize,
    imports: &[Command],
) -> Result<(), Fault> {
    let alloc = rt.alloc();
    timed_once(rt, register, "set-peer", set_peer(alloc))?;
    timed_once(
        rt,
        register,
        "plan-without",
        set_other_peer(alloc, round, 0),
    )?;
    import_all(rt, register, imports)?;
    run_beside(rt, register, round)
}

// The commands of a round after its imports.
fn run_beside<K: Keeper>(
    rt: &(impl Clock + AllocGlobal + Print),
    register: &mut Register<K>,
    round: usize,
) -> Result<(), Fault> {
    let alloc = rt.alloc();
    timed_once(rt, register, "plan", set_other_peer(alloc, round, 1))?;
    timed_once(rt, register, "add-entry", add_other(alloc, round))?;
    timed_once(rt, register, "drop-peer", drop_peer(alloc))
}

fn import_all<K: Keeper>(
    rt: &(impl Clock + AllocGlobal + Print),
    register: &mut Register<K>,
    imports: &[Command],
) -> Result<(), Fault> {
    for import in imports {
        timed(rt, register, "import", import)?;
    }
    Ok(())
}
