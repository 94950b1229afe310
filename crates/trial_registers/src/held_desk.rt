//! Prints the members and the reviews that a desk holds, a line each. Printing takes no memory.
//!
//! After the version of a review comes its state, with the member to whom it is assigned or the number of the entry
//! that finished it, and then its criteria. The line `restored-desk` asks for a desk that is restored.

use crate::held::print_names;
use std::alloc::Global;
use std::io;
use trial_values::fault::Fault;
use vet_desk::desk::Desk;
use vet_desk::review::{Review, ReviewState};

/// Prints what a desk holds.
pub fn print_desk(rt: &impl Print, desk: &Desk) -> io::Result<()> {
    for member in desk.members() {
        println!(rt; "member {member}")?;
    }
    for review in desk.reviews() {
        print_review(rt, review)?;
    }
    Ok(())
}

/// Restores a desk without members and reviews, and returns a line of how many it has of each, and of the next number
/// of a review. Refused: `NoMemory`.
pub fn restored_desk(alloc: Global) -> Result<String, Fault> {
    let desk = Desk::restore(alloc, Vec::new(alloc), Vec::new(alloc), 1)?;
    let members = desk.members().len();
    let reviews = desk.reviews().len();
    let next = desk.next_review();
    Ok(format!(in alloc; "members {members} reviews {reviews} next {next}")?)
}

fn print_review(rt: &impl Print, review: &Review) -> io::Result<()> {
    print!(rt;
        "review {} {} {} {}",
        review.number, review.day, review.package, review.version
    )?;
    print_state(rt, &review.state)?;
    print_names(rt, review.criteria.as_slice())?;
    println!(rt; "")
}

fn print_state(rt: &impl Print, state: &ReviewState) -> io::Result<()> {
    match state {
        ReviewState::Waiting => print!(rt; " waiting"),
        ReviewState::Assigned(member) => print!(rt; " assigned={member}"),
        ReviewState::Finished(entry) => print!(rt; " finished={entry}"),
        ReviewState::Withdrawn => print!(rt; " withdrawn"),
    }
}
