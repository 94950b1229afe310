//! Times exemptions that lapse.
//!
//! Each demanded package has an exemption, and no two of these have the same last day. A round adds an entry of one
//! package, and then sets the register's day to the day after the last day of that package's exemption, which lapses.
//! The next round does the same with the next package.

use crate::clock::{done, timed_once};
use crate::commands::{add_exemption, add_undemanded, load_project, set_day_after};
use std::alloc::Global;
use std::time::Clock;
use trial_values::fault::Fault;
use vet_base::limits::MOST_MOVES;
use vet_graph::keeper::Keeper;
use vet_register::register::Register;

/// How many exemptions and rounds are timed.
#[derive(Clone, Copy)]
pub struct Lapses {
    /// How many exemptions there are.
    pub count: usize,
    /// How many rounds there are, each of which makes one exemption lapse: at most `count`.
    pub rounds: usize,
}

/// Makes a register with the exemptions, and times the rounds. Fails if there are more rounds than exemptions.
pub fn run_lapses<K: Keeper>(
    rt: &(impl Clock + AllocGlobal + Print),
    lapses: Lapses,
) -> Result<(), Fault> {
    if lapses.count < lapses.rounds {
        return Err(Fault::NotUnderstood);
    }
    let mut register = register_of::<K>(rt.alloc(), lapses.count)?;
    for place in 0..lapses.rounds {
        run_round(rt, &mut register, place)?;
    }
    Ok(())
}

// A register with `count` packages, each with one demanded pair and one exemption.
fn register_of<K: Keeper>(alloc: Global, count: usize) -> Result<Register<K>, Fault> {
    let mut register = Register::new(alloc, MOST_MOVES)?;
    add_exemptions(alloc, &mut register, count)?;
    Ok(register)
}

fn add_exemptions<K: Keeper>(
    alloc: Global,
    register: &mut Register<K>,
    count: usize,
) -> Result<(), Fault> {
    done(alloc, register, load_project(alloc, count))?;
    for place in 0..count {
        done(alloc, register, add_exemption(alloc, place))?;
    }
    Ok(())
}

fn run_round<K: Keeper>(
    rt: &(impl Clock + AllocGlobal + Print),
    register: &mut Register<K>,
    place: usize,
) -> Result<(), Fault> {
    let added = add_undemanded(rt.alloc(), place);
    timed_once(rt, register, "add-entry", added)?;
    timed_once(rt, register, "set-day", set_day_after(place))
}
