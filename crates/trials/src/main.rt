//! The program of tests and benches, not part of the product. Its first word says what it does.
//!
//! With a keeper of the classes, `plain`, `masks` or `relay`, it makes a register that has this keeper, and gives it
//! what is on standard input, in order: lines, and command documents as `vetd apply` takes them, each after a line that
//! says its day, how many bytes it has, and its member (`items`). It prints the answers and, if there is a document,
//! what the register holds at the end. The first line may set a limit (`setting`). The others ask for values (`values`
//! and the modules that it names), for texts (`reports`) and for files of what is held (`held_texts`). After the keeper
//! it takes `--contents`, which also prints what is held before each document, or `--together`, which gives the
//! commands as lists. A register in memory takes two more flags. `--touched` prints before each answer to a command
//! that is done a line of the packages that it touches, or a star for all of them. `--ahead` gives the commands as
//! lists, and has each prepared before the change of the one before it is installed.
//!
//! The last words may be `--db PATH`, for a register that it makes in a database file, or `--db-open PATH`, for the one
//! that is in such a file. `--db-reopen PATH` makes one and, before it prints what that holds at the end, closes it and
//! opens it again, first on its connection and then by its files. Or they are `--stop-log N` or `--stop-db N`, for one
//! in files in memory, one of which stops at its N-th call (`stops`).
//!
//! `looks PACKAGE` has a register in memory, and prints how many looks at steps its keeper makes (`looks`). `at-once`
//! gives the commands by the call that makes their register (`at_once`). `demand` has no register, asks what projects
//! demand, and has the lines of `workspace`, with the words of `policies` and `projects`. If memory runs out, the run
//! ends with that refusal and what the register holds then, and with status 1. It ends in the same
//! way if no register can be made or opened. If the words are others, the input can't be read, or a line isn't
//! understood, it prints a message to standard error, with status 2.
//!
//! `times` times commands, `exchanges` serves requests, and `toml` reads a TOML document. The modules `times`,
//! `exchanges` and `toml_only` say what they take and print. These are one program, since each program loads all
//! libraries before its first line is proved.
#![tactic(auto)]

mod exchanges;
mod files;
mod looks;
mod times;
mod toml_only;
mod words;

use exchanges::run_exchanges;
use files::run_in_file;
use looks::run_looks;
use std::io;
use std::io::ErrorKind;
use std::process::ExitCode;
use times::run_times;
use toml_only::read_toml;
use trial_registers::input::{Input, read_input};
use trial_registers::items::{NumberedItem, items_of};
use trial_registers::relay::RelayKeeper;
use trial_registers::run::{How, run_in_memory};
use trial_stores::at_once::run_at_once;
use trial_stores::stops::run_stopped;
use trial_values::ending::{Ending, refused};
use trial_values::fault::Fault;
use trial_values::workspace::run_workspace;
use vet_base::refusal::Refusal;
use vet_graph::keeper::Keeper;
use vet_graph::plain::PlainKeeper;
use vet_masks::keeper::MaskKeeper;
use words::{InputKind, KeeperWord, Place, Words, meaning, read_words};

/// The status of a run of something that isn't understood.
const NOT_UNDERSTOOD: u8 = 2;

/// What is printed if the words are not understood.
const TAKEN_WORDS: &str = "trials takes the words (plain | masks | relay) \
    [--contents | --together | --touched | --ahead] \
    [(--db | --db-open | --db-reopen) PATH \
    | (--stop-log | --stop-db) N [--stop-open [--first-version]] [--checkpoint]], \
    looks PACKAGE, at-once, demand, times .., exchanges .., or toml";

fn main(rt: HostRuntime) -> io::Result<ExitCode> {
    match read_words(&rt) {
        Ok(words) => run_words(&rt, meaning(words.as_slice())),
        Err(error) => {
            if error.kind() == ErrorKind::OutOfMemory {
                return ended(&rt, ended_for_memory(&rt)?);
            }
            ended(&rt, Ending::Words)
        }
    }
}

fn run_words(rt: &HostRuntime, words: Words<'_>) -> io::Result<ExitCode> {
    match words {
        Words::Times => Ok(run_times(rt)),
        Words::Exchanges => Ok(run_exchanges(rt)),
        Words::Toml => Ok(read_toml(rt)),
        Words::Input(kind) => ended(rt, run_input(rt, kind)?),
        Words::Other => ended(rt, Ending::Words),
    }
}

// The status of a run that ended so, and what it says to standard error.
fn ended(rt: &HostRuntime, ending: Ending) -> io::Result<ExitCode> {
    match ending {
        Ending::Whole => Ok(ExitCode::SUCCESS),
        Ending::Refused => Ok(ExitCode::FAILURE),
        Ending::Line(number) => {
            eprintln!(rt; "line {number} is not understood")?;
            Ok(ExitCode::from(NOT_UNDERSTOOD))
        }
        Ending::Words => {
            eprintln!(rt; "{TAKEN_WORDS}")?;
            Ok(ExitCode::from(NOT_UNDERSTOOD))
        }
        Ending::Input => {
            eprintln!(rt; "the input is no text, or too long")?;
            Ok(ExitCode::from(NOT_UNDERSTOOD))
        }
    }
}

fn run_input(rt: &HostRuntime, kind: InputKind<'_>) -> io::Result<Ending> {
    match read_input(rt.alloc(), &mut rt.reader()) {
        Input::Text(text) => run_text(rt, text.as_str(), kind),
        Input::Other => Ok(Ending::Input),
        Input::NoMemory => ended_for_memory(rt),
    }
}

fn run_text(rt: &HostRuntime, text: &str, kind: InputKind<'_>) -> io::Result<Ending> {
    match kind {
        InputKind::Demand => run_workspace(rt, rt.alloc(), text),
        InputKind::AtOnce => run_at_once(rt, rt.alloc(), text),
        InputKind::Looks(package) => run_looks(rt, rt.alloc(), text, package),
        InputKind::Register(keeper, how, place) => run_register(rt, text, keeper, how, place),
    }
}

// A further keeper is a row here, and its word in `words`.
fn run_register(
    rt: &HostRuntime,
    text: &str,
    keeper: KeeperWord,
    how: How,
    place: Place<'_>,
) -> io::Result<Ending> {
    match keeper {
        KeeperWord::Plain => run_kept::<PlainKeeper>(rt, text, how, place),
        KeeperWord::Masks => run_kept::<MaskKeeper>(rt, text, how, place),
        KeeperWord::Relay => run_kept::<RelayKeeper>(rt, text, how, place),
    }
}

fn run_kept<K: Keeper>(
    rt: &HostRuntime,
    text: &str,
    how: How,
    place: Place<'_>,
) -> io::Result<Ending> {
    match items_of(rt.alloc(), text) {
        Ok(items) => run_items::<K>(rt, items.as_slice(), how, place),
        Err(fault) => refused(rt, &fault),
    }
}

fn run_items<K: Keeper>(
    rt: &HostRuntime,
    items: &[NumberedItem<'_>],
    how: How,
    place: Place<'_>,
) -> io::Result<Ending> {
    match place {
        Place::Memory => run_in_memory::<K>(rt, rt.alloc(), items, how),
        Place::File(way, path) => run_in_file::<K>(rt, path, items, how, way),
        Place::Stopping(stop) => run_stopped::<K>(rt, rt.alloc(), items, how, stop),
    }
}

fn ended_for_memory(rt: &impl Print) -> io::Result<Ending> {
    refused(rt, &Fault::Refused(Refusal::NoMemory))
}
