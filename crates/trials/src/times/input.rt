//! The words of the command line, and the text on standard input.

use crate::words::{KeeperWord, keeper_of};
use std::env;
use std::io::Read;
use trial_times::desk_rounds::Reviews;
use trial_times::import_rounds::Sizes;
use trial_times::lapse_rounds::Lapses;
use trial_values::fault::Fault;

/// What is to be timed, and how much of it.
#[derive(Clone, Copy)]
pub enum Task {
    /// This many rounds of imports.
    Imports(Sizes),
    /// This many rounds of replacements.
    Replacements(usize),
    /// This many rounds of commands to the review desk.
    Desk(Reviews),
    /// This many rounds of exemptions that lapse.
    Lapses(Lapses),
    /// This many rounds of finding a demand.
    Demands(usize),
    /// This many rounds of commands to a register in a file.
    Stored(usize),
    /// The opening of a register in a file.
    Opened,
    /// The parts of that.
    Parts,
    /// This many rounds of commands to a register in memory.
    Memory(usize),
}

/// What the words after `times` say: the keeper of the classes, and what is to be timed.
pub fn read_task(rt: &HostRuntime) -> Result<(KeeperWord, Task), Fault> {
    let mut words = env::args(rt)?;
    let _name = words.next();
    let _room = words.next();
    let (Some(keeper), Some(task)) = (words.next(), words.next()) else {
        return Err(Fault::NotUnderstood);
    };
    let Some(keeper) = keeper_of(keeper.as_str()) else {
        return Err(Fault::NotUnderstood);
    };
    let (first, second) = (words.next(), words.next());
    Ok((keeper, task_of(task.as_str(), &first, &second)?))
}

fn task_of(task: &str, first: &Option<String>, second: &Option<String>) -> Result<Task, Fault> {
    match task {
        "imports" => Ok(Task::Imports(Sizes {
            rounds: number(first)?,
            own: number(second)?,
        })),
        "replace" => Ok(Task::Replacements(number(first)?)),
        "desk" => Ok(Task::Desk(Reviews {
            count: number(first)?,
            rounds: number(second)?,
        })),
        "lapses" => Ok(Task::Lapses(Lapses {
            count: number(first)?,
            rounds: number(second)?,
        })),
        "demand" => Ok(Task::Demands(number(first)?)),
        "store" => Ok(Task::Stored(number(second)?)),
        "open" => Ok(Task::Opened),
        "parts" => Ok(Task::Parts),
        "memory" => Ok(Task::Memory(number(first)?)),
        _ => Err(Fault::NotUnderstood),
    }
}

fn number(word: &Option<String>) -> Result<usize, Fault> {
    let Some(word) = word else {
        return Err(Fault::NotUnderstood);
    };
    match word.as_str().parse::<usize>() {
        Ok(number) => Ok(number),
        Err(_) => Err(Fault::NotUnderstood),
    }
}

/// The path after the task.
pub fn read_path(rt: &HostRuntime) -> Result<String, Fault> {
    let mut words = env::args(rt)?;
    match words.nth(4) {
        Some(path) => Ok(path),
        None => Err(Fault::NotUnderstood),
    }
}

/// All of standard input.
pub fn read_text(rt: &HostRuntime) -> Result<String, Fault> {
    let mut text = String::new(rt.alloc());
    rt.reader().read_to_string(&mut text)?;
    Ok(text)
}
