//! The rounds of commands to the review desk.
//!
//! At first all reviews but one for each round are opened. Of each four in a row one is assigned, one finished and one
//! withdrawn, so there are reviews in every state. A round opens one more, and changes three that wait, far from those
//! of other rounds. So in the last round there are as many as were asked for. The entry that a round adds is dropped,
//! so no round has more to plan than another.

use crate::clock::{done, timed_once};
use crate::commands::{drop_entry, load_project, remove_criterion, set_criterion, set_other_peer};
use crate::reviews::{
    add_member, assign_review, finish_by_delta, finish_in_full, open_review, withdraw_review,
};
use std::alloc::Global;
use std::time::Clock;
use trial_values::fault::Fault;
use vet_base::limits::MOST_MOVES;
use vet_graph::keeper::Keeper;
use vet_register::register::Register;

// How many packages the project demands.
const DEMANDED: usize = 1;

// How many reviews in a row have one of each state.
const IN_A_ROW: usize = 4;

// How far the numbers of two reviews that wait lie apart.
const BETWEEN_WAITING: u64 = 4;

// How many reviews a round needs, as it changes three that wait.
const FOR_A_ROUND: usize = 12;

/// How much is to be timed of the review desk.
#[derive(Clone, Copy)]
pub struct Reviews {
    /// How many reviews there are at the end.
    pub count: usize,
    /// How many rounds.
    pub rounds: usize,
}

/// Times the rounds, and prints how many reviews there are at the end.
pub fn run_reviews<K: Keeper>(
    rt: &(impl Clock + AllocGlobal + Print),
    reviews: Reviews,
) -> Result<(), Fault> {
    let Reviews { count, rounds } = reviews;
    if rounds == 0 {
        return Err(Fault::NotUnderstood);
    }
    let opened = count.saturating_sub(rounds);
    let apart = opened / rounds;
    if apart < FOR_A_ROUND {
        return Err(Fault::NotUnderstood);
    }
    let mut register = register_of::<K>(rt.alloc(), opened)?;
    for round in 0..rounds {
        run_round(rt, &mut register, round, waiting_from(round, apart))?;
    }
    let held = register.desk().reviews().len();
    println!(rt; "reviews {held}")?;
    Ok(())
}

// The place of the first review that a round changes, if so many lie between two rounds.
fn waiting_from(round: usize, apart: usize) -> usize {
    let waiting = round.saturating_mul(apart / IN_A_ROW);
    waiting.saturating_mul(IN_A_ROW)
}

// A register at whose desk so many reviews were opened, all of the one pair that is demanded.
fn register_of<K: Keeper>(alloc: Global, opened: usize) -> Result<Register<K>, Fault> {
    let mut register = Register::new(alloc, MOST_MOVES)?;
    open_reviews(alloc, &mut register, opened)?;
    Ok(register)
}

fn open_reviews<K: Keeper>(
    alloc: Global,
    register: &mut Register<K>,
    opened: usize,
) -> Result<(), Fault> {
    done(alloc, register, load_project(alloc, DEMANDED))?;
    done(alloc, register, add_member(alloc))?;
    for place in 0..opened {
        done(alloc, register, open_review(alloc))?;
        change_state(alloc, register, place)?;
    }
    Ok(())
}

// Of four reviews in a row the first waits on.
fn change_state<K: Keeper>(
    alloc: Global,
    register: &mut Register<K>,
    place: usize,
) -> Result<(), Fault> {
    let review = number_at(place);
    match place % IN_A_ROW {
        1 => done(alloc, register, assign_review(alloc, review)),
        2 => assign_and_finish(alloc, register, review),
        3 => done(alloc, register, withdraw_review(alloc, review)),
        _ => Ok(()),
    }
}

fn assign_and_finish<K: Keeper>(
    alloc: Global,
    register: &mut Register<K>,
    review: u64,
) -> Result<(), Fault> {
    done(alloc, register, assign_review(alloc, review))?;
    done(alloc, register, finish_in_full(alloc, review))
}

// The commands of a round, of three reviews that wait, from the one at this place on.
fn run_round<K: Keeper>(
    rt: &(impl Clock + AllocGlobal + Print),
    register: &mut Register<K>,
    round: usize,
    place: usize,
) -> Result<(), Fault> {
    let first = number_at(place);
    let second = first.saturating_add(BETWEEN_WAITING);
    let third = second.saturating_add(BETWEEN_WAITING);
    run_held(rt, register, first)?;
    run_other(rt, register, second, third, round)?;
    drop_last_entry(rt.alloc(), register)?;
    run_beside(rt, register, round)
}

// Opens a review, and finishes another one by an entry that is held.
fn run_held<K: Keeper>(
    rt: &(impl Clock + AllocGlobal + Print),
    register: &mut Register<K>,
    review: u64,
) -> Result<(), Fault> {
    let alloc = rt.alloc();
    timed_once(rt, register, "open", open_review(alloc))?;
    timed_once(rt, register, "assign", assign_review(alloc, review))?;
    timed_once(rt, register, "finish-held", finish_in_full(alloc, review))
}

// Finishes a review by an entry that is added, and withdraws another one.
fn run_other<K: Keeper>(
    rt: &(impl Clock + AllocGlobal + Print),
    register: &mut Register<K>,
    finished: u64,
    withdrawn: u64,
    round: usize,
) -> Result<(), Fault> {
    let alloc = rt.alloc();
    timed_once(rt, register, "assign", assign_review(alloc, finished))?;
    timed_once(
        rt,
        register,
        "finish",
        finish_by_delta(alloc, finished, round),
    )?;
    timed_once(rt, register, "withdraw", withdraw_review(alloc, withdrawn))
}

// The commands of a round that are not the desk's.
fn run_beside<K: Keeper>(
    rt: &(impl Clock + AllocGlobal + Print),
    register: &mut Register<K>,
    round: usize,
) -> Result<(), Fault> {
    let alloc = rt.alloc();
    timed_once(rt, register, "plan", set_other_peer(alloc, round, 0))?;
    done(alloc, register, set_criterion(alloc))?;
    timed_once(rt, register, "remove", remove_criterion(alloc))
}

// Drops the entry that was added last.
fn drop_last_entry<K: Keeper>(alloc: Global, register: &mut Register<K>) -> Result<(), Fault> {
    match register.entries().last() {
        Some(held) => {
            let dropped = drop_entry(held.number);
            done(alloc, register, dropped)
        }
        None => Ok(()),
    }
}

// The number of the review at a place.
fn number_at(place: usize) -> u64 {
    (place as u64).saturating_add(1)
}
