//! The words of the command line.

use std::env::Env;
use std::{env, io};
use trial_registers::run::How;
use trial_stores::stops::{DiskStop, StoppedFile};
use trial_stores::stored::OpenMode;

/// What the words ask for.
#[derive(Clone, Copy)]
pub enum Words<'w> {
    /// Commands, timed.
    Times,
    /// Requests, served.
    Exchanges,
    /// The reading of a TOML document.
    Toml,
    /// A text on standard input, taken so.
    Input(InputKind<'w>),
    /// Anything else.
    Other,
}

/// What a text is taken as.
#[derive(Clone, Copy)]
pub enum InputKind<'w> {
    /// What projects demand.
    Demand,
    /// Commands that are given at once.
    AtOnce,
    /// Looks at the steps of this package.
    Looks(&'w str),
    /// A register there, with this keeper of the classes.
    Register(KeeperWord, How, Place<'w>),
}

/// Where a register is.
#[derive(Clone, Copy)]
pub enum Place<'w> {
    /// In memory.
    Memory,
    /// In the database file of this path, opened in this mode.
    File(OpenMode, &'w str),
    /// In files in memory of which one stops.
    Stopping(DiskStop),
}

/// The keeper of the classes.
#[derive(Clone, Copy)]
pub enum KeeperWord {
    /// One that recomputes every class.
    Plain,
    /// That of the product.
    Masks,
    /// One that passes every call on to the plain one.
    Relay,
}

/// The words after the program's own name. Refused: `OutOfMemory`, and a word that is not text.
pub fn read_words(rt: &(impl Env + AllocGlobal)) -> io::Result<Vec<String>> {
    let mut words = env::args(rt)?;
    let _name = words.next();
    Ok(words.collect(rt.alloc())?)
}

/// What the words ask for.
pub fn meaning(words: &[String]) -> Words<'_> {
    let [first, others @ ..] = words else {
        return Words::Other;
    };
    match first.as_str() {
        "times" => Words::Times,
        "exchanges" => Words::Exchanges,
        "toml" => Words::Toml,
        "demand" => alone(others, InputKind::Demand),
        "at-once" => alone(others, InputKind::AtOnce),
        "looks" => of_looks(others),
        word => of_register(word, others),
    }
}

/// The keeper that a word names.
pub fn keeper_of(word: &str) -> Option<KeeperWord> {
    match word {
        "plain" => Some(KeeperWord::Plain),
        "masks" => Some(KeeperWord::Masks),
        "relay" => Some(KeeperWord::Relay),
        _ => None,
    }
}

// What a word that takes no other words asks for.
fn alone<'w>(others: &[String], kind: InputKind<'w>) -> Words<'w> {
    match others {
        [] => Words::Input(kind),
        _ => Words::Other,
    }
}

fn of_looks(others: &[String]) -> Words<'_> {
    match others {
        [package] => Words::Input(InputKind::Looks(package.as_str())),
        _ => Words::Other,
    }
}

// What the word of a keeper asks for, with those after it.
fn of_register<'w>(word: &str, others: &'w [String]) -> Words<'w> {
    match keeper_of(word) {
        Some(keeper) => of_keeper(keeper, others),
        None => Words::Other,
    }
}

fn of_keeper(keeper: KeeperWord, words: &[String]) -> Words<'_> {
    let (how, words) = way_of(words);
    match words {
        [] => Words::Input(InputKind::Register(keeper, how, Place::Memory)),
        [flag, value, others @ ..] => {
            of_place(keeper, how, place_of(flag.as_str(), value.as_str(), others))
        }
        _ => Words::Other,
    }
}

// How the commands are given, by the first word or without one, and the other words.
fn way_of(words: &[String]) -> (How, &[String]) {
    let [first, others @ ..] = words else {
        return (How::Singly, words);
    };
    match first.as_str() {
        "--contents" => (How::Shown, others),
        "--together" => (How::Together, others),
        "--touched" => (How::Touched, others),
        "--ahead" => (How::Ahead, others),
        _ => (How::Singly, words),
    }
}

fn of_place<'w>(keeper: KeeperWord, how: How, place: Option<Place<'w>>) -> Words<'w> {
    if how.asks_for_memory() {
        return Words::Other;
    }
    match place {
        Some(place) => Words::Input(InputKind::Register(keeper, how, place)),
        None => Words::Other,
    }
}

// The place that a flag names with its value and the words after it.
fn place_of<'w>(flag: &str, value: &'w str, others: &[String]) -> Option<Place<'w>> {
    match flag {
        "--db" => file_at(OpenMode::Made, value, others),
        "--db-open" => file_at(OpenMode::Opened, value, others),
        "--db-reopen" => file_at(OpenMode::Reopened, value, others),
        "--stop-log" => stop_at(StoppedFile::Log, value, others),
        "--stop-db" => stop_at(StoppedFile::Database, value, others),
        _ => None,
    }
}

fn file_at<'w>(mode: OpenMode, path: &'w str, others: &[String]) -> Option<Place<'w>> {
    match others {
        [] => Some(Place::File(mode, path)),
        _ => None,
    }
}

fn stop_at<'w>(file: StoppedFile, number: &str, others: &[String]) -> Option<Place<'w>> {
    let Ok(call) = number.parse::<usize>() else {
        return None;
    };
    let (in_open, others) = behind_flag(others, "--stop-open");
    let (first_version, others) = behind_flag(others, "--first-version");
    let (checkpoint, others) = behind_flag(others, "--checkpoint");
    if call == 0 || !others.is_empty() {
        return None;
    }
    if first_version && !in_open {
        return None;
    }
    Some(Place::Stopping(DiskStop {
        file,
        call: call as u64,
        in_open,
        first_version,
        checkpoint,
    }))
}

// Whether a flag comes first, and the words after it.
fn behind_flag<'w>(words: &'w [String], flag: &str) -> (bool, &'w [String]) {
    match words {
        [first, others @ ..] => {
            if first.as_str() == flag {
                (true, others)
            } else {
                (false, words)
            }
        }
        [] => (false, words),
    }
}
