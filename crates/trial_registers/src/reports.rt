//! Lines that ask for a text of the register, which is printed as it is.
//!
//! `report KIND` asks for one that `vetd report` shows, and `report standing CLASS` for the lines of the pairs of a
//! class. `report outcome STEP NUMBER MOVES` asks for the line of a command that is done, and `report outcome NUMBER`
//! for that of one whose content is held. NUMBER is `-` if there is none.

use std::alloc::Global;
use trial_values::fault::Fault;
use trial_values::line::words_of;
use trial_values::tables::class_of_word;
use vet_graph::keeper::Keeper;
use vet_register::command::Outcome;
use vet_register::register::Register;
use vet_reports::outcome_text::outcome_text;
use vet_reports::report::Report;
use vet_reports::standing_text::{Filter, standing_text};

/// The text that a line asks for, if it asks for one.
pub fn report_word(line: &str) -> Option<&str> {
    line.strip_prefix("report ")
}

/// The text of these words. Refused: `NoMemory`.
pub fn report<K: Keeper>(
    alloc: Global,
    register: &Register<K>,
    words: &str,
) -> Result<String, Fault> {
    if let Some(class) = words.strip_prefix("standing ") {
        return standing_in(alloc, register, class);
    }
    if let Some(numbers) = words.strip_prefix("outcome ") {
        return outcome_line(alloc, numbers);
    }
    match Report::named(words) {
        Some(report) => Ok(report.text(alloc, register)?),
        None => Err(Fault::NotUnderstood),
    }
}

fn standing_in<K: Keeper>(
    alloc: Global,
    register: &Register<K>,
    class: &str,
) -> Result<String, Fault> {
    let filter = Filter {
        package: None,
        class: Some(class_of_word(class)?),
    };
    Ok(standing_text(alloc, register, &filter)?)
}

fn outcome_line(alloc: Global, numbers: &str) -> Result<String, Fault> {
    let words = words_of(alloc, numbers)?;
    let outcome = outcome_of(words.as_slice())?;
    Ok(outcome_text(alloc, &outcome)?)
}

fn outcome_of(words: &[String]) -> Result<Outcome, Fault> {
    match words {
        [step, number, moves] => Ok(Outcome::Done {
            step: number_of(step.as_str())?,
            number: optional_number(number.as_str())?,
            moves: number_of(moves.as_str())?,
        }),
        [number] => Ok(Outcome::Already(optional_number(number.as_str())?)),
        _ => Err(Fault::NotUnderstood),
    }
}

fn optional_number(word: &str) -> Result<Option<u64>, Fault> {
    if word == "-" {
        return Ok(None);
    }
    Ok(Some(number_of(word)?))
}

fn number_of(word: &str) -> Result<u64, Fault> {
    match word.parse::<u64>() {
        Ok(number) => Ok(number),
        Err(_) => Err(Fault::NotUnderstood),
    }
}
