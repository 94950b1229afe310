//! Commands that are given by the call which makes their register.
//!
//! The word `at-once` takes no other word. From standard input it takes the limit and the documents, as the word
//! `masks` does, and ignores the other lines. One call makes a store in memory and gives it all the commands. It prints
//! the answers and what the register holds at the end, or the refusal of a document.

use std::alloc::Global;
use std::io;
use trial_registers::items::{Item, NumberedItem, items_of};
use trial_registers::run::{command_of, print_answers, print_end};
use trial_registers::setting::limit_of;
use trial_values::ending::{Ending, refused};
use trial_values::fault::Fault;
use vet_masks::keeper::MaskKeeper;
use vet_register::command::Command;
use vet_store::memory::run_in_memory;

/// Gives the commands of a text to a register that is made with them, and prints the answers and what it holds.
pub fn run_at_once(rt: &impl Print, alloc: Global, text: &str) -> io::Result<Ending> {
    match items_of(alloc, text) {
        Ok(items) => give_items(rt, alloc, items.as_slice()),
        Err(fault) => refused(rt, &fault),
    }
}

fn give_items(rt: &impl Print, alloc: Global, items: &[NumberedItem<'_>]) -> io::Result<Ending> {
    match commands_of(alloc, items) {
        Ok(commands) => give_commands(rt, alloc, items, commands.as_slice()),
        Err(fault) => refused(rt, &fault),
    }
}

fn commands_of(alloc: Global, items: &[NumberedItem<'_>]) -> Result<Vec<Command>, Fault> {
    let mut commands = Vec::new(alloc);
    for numbered in items {
        if let Item::Document(document) = numbered.item {
            commands.push(command_of(alloc, document)?)?;
        }
    }
    Ok(commands)
}

fn give_commands(
    rt: &impl Print,
    alloc: Global,
    items: &[NumberedItem<'_>],
    commands: &[Command],
) -> io::Result<Ending> {
    match run_in_memory::<MaskKeeper>(alloc, limit_of(items), commands) {
        Ok(first) => {
            print_answers(rt, first.answers.as_slice())?;
            print_end(rt, first.store.register(), true, Ending::Whole)
        }
        Err(refusal) => refused(rt, &Fault::Refused(refusal)),
    }
}
