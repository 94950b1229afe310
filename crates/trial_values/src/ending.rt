//! How a run ends, and what it prints of a refusal. Printing takes no memory.

use crate::fault::Fault;
use std::io;
use vet_base::refusal::Refusal;

/// How a run ended.
#[derive(Clone, Copy)]
pub enum Ending {
    /// Each item was given.
    Whole,
    /// Memory ran out, and nothing was given after that.
    Refused,
    /// The line of this number, counted from 1, was not understood.
    Line(usize),
    /// The words of the command line were not understood.
    Words,
    /// The input was not text, or too long.
    Input,
}

/// The result of an item.
#[derive(Clone, Copy)]
pub enum ItemResult {
    /// It was answered, or is one of a list that was not given yet.
    Answered,
    /// Memory ran out.
    NoMemory,
    /// It was not understood.
    NotUnderstood,
}

/// Prints the refusal with which a run ends.
pub fn refused(rt: &impl Print, fault: &Fault) -> io::Result<Ending> {
    print_fault(rt, fault)?;
    Ok(Ending::Refused)
}

/// Prints a refusal, and nothing for an item that is not understood.
pub fn print_fault(rt: &impl Print, fault: &Fault) -> io::Result<ItemResult> {
    match fault {
        Fault::NotUnderstood | Fault::Stream => Ok(ItemResult::NotUnderstood),
        Fault::Refused(refusal) => {
            print_refusal(rt, refusal)?;
            if let Refusal::NoMemory = refusal {
                return Ok(ItemResult::NoMemory);
            }
            Ok(ItemResult::Answered)
        }
    }
}

/// Prints a refusal: its number, its name, and its details.
pub fn print_refusal(rt: &impl Print, refusal: &Refusal) -> io::Result<()> {
    print!(rt; "refused {} {}", refusal.number(), refusal.name())?;
    print_details(rt, refusal)?;
    println!(rt; "")
}

// Prints the details of a refusal, behind its number and its name.
fn print_details(rt: &impl Print, refusal: &Refusal) -> io::Result<()> {
    match refusal {
        Refusal::UnknownCriterion(criterion) => print!(rt; " {criterion}"),
        Refusal::UnknownNode(record) | Refusal::TwoParties(record) | Refusal::CsvRefused(record) =>
            print!(rt; " {record}"),
        Refusal::TooLarge(limit) => print!(rt; " {}", limit.word()),
        Refusal::FieldRefused(table, key) => print!(rt; " {table} {key}"),
        _ => Ok(()),
    }
}
