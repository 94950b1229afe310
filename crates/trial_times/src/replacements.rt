//! The rounds in which files replace what is held.

use crate::clock::{done, timed_once};
use crate::commands::{load_table, replace_files, set_criterion};
use crate::contents::BETWEEN_FILES;
use crate::files::{FileTexts, files_of, read_timed, tables_before};
use std::alloc::Global;
use std::time::Clock;
use trial_values::fault::Fault;
use vet_base::limits::MOST_MOVES;
use vet_graph::keeper::Keeper;
use vet_register::register::Register;

/// Times the rounds of replacements by the files of a text.
pub fn run_replacements<K: Keeper>(
    rt: &(impl Clock + AllocGlobal + Print),
    rounds: usize,
    text: &str,
) -> Result<(), Fault> {
    let (tables, rest) = tables_before(text)?;
    let mut register = register_of::<K>(rt.alloc(), tables)?;
    let files = files_of(rt.alloc(), rest)?;
    for _round in 0..rounds {
        run_round(rt, &mut register, files.as_slice())?;
    }
    Ok(())
}

// A register that has the projects of some tables, and nothing else.
fn register_of<K: Keeper>(alloc: Global, tables: &str) -> Result<Register<K>, Fault> {
    let mut register = Register::new(alloc, MOST_MOVES)?;
    for (place, table) in tables.split(BETWEEN_FILES).enumerate() {
        done(alloc, &mut register, load_table(alloc, place, table))?;
    }
    Ok(register)
}

fn run_round<K: Keeper>(
    rt: &(impl Clock + AllocGlobal + Print),
    register: &mut Register<K>,
    files: &[FileTexts<'_>],
) -> Result<(), Fault> {
    replace_all(rt, register, files)?;
    timed_once(rt, register, "plan", set_criterion(rt.alloc()))
}

fn replace_all<K: Keeper>(
    rt: &(impl Clock + AllocGlobal + Print),
    register: &mut Register<K>,
    files: &[FileTexts<'_>],
) -> Result<(), Fault> {
    for texts in files {
        let content = read_timed(rt, *texts)?;
        timed_once(rt, register, "replace", replace_files(content))?;
    }
    Ok(())
}
