//! A run of the input over a register that runs commands.

use crate::ahead::AheadRegister;
use crate::held_texts::line_text;
use crate::items::{Document, Item, NumberedItem, has_documents};
use crate::noting::NotingRegister;
use crate::print::{print_contents, print_outcome, print_touched};
use crate::reports::{report, report_word};
use crate::runs::Runs;
use crate::setting::{behind_setting, limit_of};
use std::alloc::Global;
use std::io;
use trial_values::ending::{Ending, ItemResult, print_fault, print_refusal, refused};
use trial_values::fault::Fault;
use vet_base::day::Day;
use vet_base::refusal::Refusal;
use vet_documents::command_document::read_command;
use vet_graph::keeper::Keeper;
use vet_register::command::{Command, Outcome};
use vet_register::register::Register;

/// How commands are given.
#[derive(Clone, Copy, PartialEq, Eq)]
pub enum How {
    /// One by one.
    Singly,
    /// One by one, and before each is printed what the register holds.
    Shown,
    /// One by one to a register in memory, and before the answer to each that is done are printed the packages that it
    /// touches.
    Touched,
    /// As lists, each as long as no document between its commands is refused, and no line is given.
    Together,
    /// As such lists to a register in memory, which prepares each command before it installs what the one before it
    /// changes.
    Ahead,
}

impl How {
    /// Whether commands can be given so to a register in memory alone.
    pub fn asks_for_memory(self) -> bool {
        self == How::Touched || self == How::Ahead
    }

    // Whether commands are given as lists.
    fn gives_lists(self) -> bool {
        self == How::Together || self == How::Ahead
    }
}

/// Gives items in their order to a register in memory, up to one for which memory runs out, and prints the
/// answers and, if there is a command, what the register holds at the end.
pub fn run_in_memory<K: Keeper>(
    rt: &impl Print,
    alloc: Global,
    items: &[NumberedItem<'_>],
    how: How,
) -> io::Result<Ending> {
    match Register::<K>::new(alloc, limit_of(items)) {
        Ok(register) => run_as::<K>(rt, alloc, register, items, how),
        Err(refusal) => refused(rt, &Fault::Refused(refusal)),
    }
}

fn run_as<K: Keeper>(
    rt: &impl Print,
    alloc: Global,
    register: Register<K>,
    items: &[NumberedItem<'_>],
    how: How,
) -> io::Result<Ending> {
    match how {
        How::Touched => run_by::<K, _>(rt, alloc, NotingRegister::of(register), items, how),
        How::Ahead => run_by::<K, _>(rt, alloc, AheadRegister::of(register), items, how),
        _ => run_by::<K, _>(rt, alloc, register, items, how),
    }
}

fn run_by<K: Keeper, R: Runs<K> + Drop>(
    rt: &impl Print,
    alloc: Global,
    mut runs: R,
    items: &[NumberedItem<'_>],
    how: How,
) -> io::Result<Ending> {
    let ending = give_all::<K, R>(rt, alloc, &mut runs, items, how)?;
    print_end(rt, runs.shown(), has_documents(items), ending)
}

/// Prints what is held at the end of a run, if it is shown and all items were understood.
pub fn print_end<K: Keeper>(
    rt: &impl Print,
    register: &Register<K>,
    is_shown: bool,
    ending: Ending,
) -> io::Result<Ending> {
    if let Ending::Line(_) = ending {
        return Ok(ending);
    }
    if is_shown {
        print_contents(rt, register)?;
    }
    Ok(ending)
}

/// Gives items in their order, up to one for which memory runs out or that isn't understood, and prints the answers.
pub fn give_all<K: Keeper, R: Runs<K>>(
    rt: &impl Print,
    alloc: Global,
    runs: &mut R,
    items: &[NumberedItem<'_>],
    how: How,
) -> io::Result<Ending> {
    let mut list = Vec::new(alloc);
    for numbered in behind_setting(items) {
        match give::<K, R>(rt, alloc, runs, &mut list, numbered.item, how)? {
            ItemResult::Answered => {}
            ItemResult::NoMemory => return Ok(Ending::Refused),
            ItemResult::NotUnderstood => return Ok(Ending::Line(numbered.number)),
        }
    }
    match give_list::<K, R>(rt, alloc, runs, &mut list)? {
        ItemResult::Answered => Ok(Ending::Whole),
        _ => Ok(Ending::Refused),
    }
}

fn give<K: Keeper, R: Runs<K>>(
    rt: &impl Print,
    alloc: Global,
    runs: &mut R,
    list: &mut Vec<Command>,
    item: Item<'_>,
    how: How,
) -> io::Result<ItemResult> {
    match item {
        Item::Document(document) => give_document::<K, R>(rt, alloc, runs, list, document, how),
        Item::Line(line) => give_line::<K, R>(rt, alloc, runs, list, line),
        Item::Unframed => Ok(ItemResult::NotUnderstood),
    }
}

fn give_document<K: Keeper, R: Runs<K>>(
    rt: &impl Print,
    alloc: Global,
    runs: &mut R,
    list: &mut Vec<Command>,
    document: Document<'_>,
    how: How,
) -> io::Result<ItemResult> {
    if how == How::Shown {
        print_contents(rt, runs.shown())?;
    }
    match command_of(alloc, document) {
        Ok(command) => {
            if how.gives_lists() {
                return Ok(listed(list, command));
            }
            give_command::<K, R>(rt, alloc, runs, &command)
        }
        Err(refusal) => give_before::<K, R>(rt, alloc, runs, list, &Fault::Refused(refusal)),
    }
}

/// The command of a document. Refused: as `vetd apply` refuses it, the day first.
pub fn command_of(alloc: Global, document: Document<'_>) -> Result<Command, Refusal> {
    let day = Day::parse(document.day)?;
    let member = match document.member {
        Some(member) => Some(member.as_bytes()),
        None => None,
    };
    read_command(alloc, document.bytes, day, member)
}

fn listed(list: &mut Vec<Command>, command: Command) -> ItemResult {
    match list.push(command) {
        Ok(()) => ItemResult::Answered,
        Err(_) => ItemResult::NoMemory,
    }
}

fn give_command<K: Keeper, R: Runs<K>>(
    rt: &impl Print,
    alloc: Global,
    runs: &mut R,
    command: &Command,
) -> io::Result<ItemResult> {
    match runs.run_command(alloc, command) {
        Ok(outcome) => {
            print_touched(rt, runs.touched())?;
            print_outcome(rt, outcome)?;
            Ok(ItemResult::Answered)
        }
        Err(refusal) => print_fault(rt, &Fault::Refused(refusal)),
    }
}

// Gives the list, and then prints the fault of the item after it.
fn give_before<K: Keeper, R: Runs<K>>(
    rt: &impl Print,
    alloc: Global,
    runs: &mut R,
    list: &mut Vec<Command>,
    fault: &Fault,
) -> io::Result<ItemResult> {
    match give_list::<K, R>(rt, alloc, runs, list)? {
        ItemResult::Answered => print_fault(rt, fault),
        told => Ok(told),
    }
}

// Gives the commands of a list, and empties it.
fn give_list<K: Keeper, R: Runs<K>>(
    rt: &impl Print,
    alloc: Global,
    runs: &mut R,
    list: &mut Vec<Command>,
) -> io::Result<ItemResult> {
    if list.is_empty() {
        return Ok(ItemResult::Answered);
    }
    let answers = runs.run_commands(alloc, list.as_slice());
    list.clear();
    match answers {
        Ok(answers) => print_answers(rt, answers.as_slice()),
        Err(refusal) => print_fault(rt, &Fault::Refused(refusal)),
    }
}

/// Prints the answers to some commands.
pub fn print_answers(
    rt: &impl Print,
    answers: &[Result<Outcome, Refusal>],
) -> io::Result<ItemResult> {
    for answer in answers {
        match answer {
            Ok(outcome) => print_outcome(rt, *outcome)?,
            Err(refusal) => print_refusal(rt, refusal)?,
        }
    }
    Ok(ItemResult::Answered)
}

// Gives the list, and then answers the line after it.
fn give_line<K: Keeper, R: Runs<K>>(
    rt: &impl Print,
    alloc: Global,
    runs: &mut R,
    list: &mut Vec<Command>,
    line: &str,
) -> io::Result<ItemResult> {
    match give_list::<K, R>(rt, alloc, runs, list)? {
        ItemResult::Answered => print_line(rt, alloc, runs.shown(), line),
        told => Ok(told),
    }
}

fn print_line<K: Keeper>(
    rt: &impl Print,
    alloc: Global,
    register: &Register<K>,
    line: &str,
) -> io::Result<ItemResult> {
    if let Some(kind) = report_word(line) {
        return print_report(rt, alloc, register, kind);
    }
    match line_text(alloc, register, line) {
        Ok(told) => {
            println!(rt; "{told}")?;
            Ok(ItemResult::Answered)
        }
        Err(fault) => print_fault(rt, &fault),
    }
}

fn print_report<K: Keeper>(
    rt: &impl Print,
    alloc: Global,
    register: &Register<K>,
    kind: &str,
) -> io::Result<ItemResult> {
    match report(alloc, register, kind) {
        Ok(text) => {
            print!(rt; "{text}")?;
            Ok(ItemResult::Answered)
        }
        Err(fault) => print_fault(rt, &fault),
    }
}
