//! Lines that ask for tables of criteria, and for the moves between two standings.
//!
//! `table-of [NAME=IMPLIED,.. ..]` makes the table of the built-in criteria and of these at once, and
//! `table [NAME=IMPLIED,.. | -NAME ..]` sets and removes them one by one; each prints the names of the table.
//! `moves BEFORE AFTER` prints the moves from one standing to the other. Each standing is a list
//! of `PACKAGE,VERSION,CRITERION,CLASS` with a `;` after each, in the order of the pairs.

use crate::fault::Fault;
use crate::line::two;
use crate::lists::{pair, push_in_brackets};
use crate::name_lists::names_between_commas;
use std::alloc::Global;
use vet_base::criteria_table::CriteriaTable;
use vet_base::criterion::Criterion;
use vet_base::name::Name;
use vet_graph::class::Class;
use vet_graph::moves::{Move, differences};
use vet_graph::standing::Stand;

/// The table of some criteria. Refused: what the table is refused for, and `NoMemory`.
pub fn table_of(alloc: Global, texts: &[String]) -> Result<String, Fault> {
    let mut criteria = Vec::new(alloc);
    for text in texts {
        criteria.push(criterion(alloc, text.as_str())?)?;
    }
    table_text(alloc, &CriteriaTable::of(alloc, criteria)?)
}

/// A table in which some criteria were set, and others removed. Refused: the first that is refused, and
/// `NoMemory`.
pub fn table(alloc: Global, texts: &[String]) -> Result<String, Fault> {
    let mut table = CriteriaTable::new(alloc)?;
    for text in texts {
        change(alloc, &mut table, text.as_str())?;
    }
    table_text(alloc, &table)
}

fn change(alloc: Global, table: &mut CriteriaTable, text: &str) -> Result<(), Fault> {
    if let Some(name) = text.strip_prefix("-") {
        table.remove(Name::parse(alloc, name)?)?;
        return Ok(());
    }
    table.set(criterion(alloc, text)?)?;
    Ok(())
}

// The criterion that a text `NAME=IMPLIED,..` is.
fn criterion(alloc: Global, text: &str) -> Result<Criterion, Fault> {
    let Some((name, implied)) = text.split_once('=') else {
        return Err(Fault::NotUnderstood);
    };
    Ok(Criterion {
        name: Name::parse(alloc, name)?,
        description: None,
        url: None,
        implies: names_between_commas(alloc, implied)?,
    })
}

fn table_text(alloc: Global, table: &CriteriaTable) -> Result<String, Fault> {
    let mut told = String::new(alloc);
    for name in table.names() {
        push_in_brackets(&mut told, name.as_str())?;
    }
    Ok(told)
}

/// The moves from one standing to another. Refused: what their texts are refused for, and `NoMemory`.
pub fn moves(alloc: Global, texts: &[String]) -> Result<String, Fault> {
    let (before, after) = two(texts)?;
    let before = stands(alloc, before)?;
    let after = stands(alloc, after)?;
    let moves = differences(alloc, before.as_slice(), after.as_slice())?;
    moves_text(alloc, moves.as_slice())
}

fn stands(alloc: Global, text: &str) -> Result<Vec<Stand>, Fault> {
    let mut stands = Vec::new(alloc);
    for part in text.split(';') {
        if !part.is_empty() {
            stands.push(stand(alloc, part)?)?;
        }
    }
    Ok(stands)
}

// The stand that a text `PACKAGE,VERSION,CRITERION,CLASS` writes.
fn stand(alloc: Global, text: &str) -> Result<Stand, Fault> {
    let Some((text, word)) = text.rsplit_once(',') else {
        return Err(Fault::NotUnderstood);
    };
    let class = class_of_word(word)?;
    Ok(Stand {
        pair: pair(alloc, text)?,
        class,
    })
}

/// The class of this word.
pub fn class_of_word(word: &str) -> Result<Class, Fault> {
    match word {
        "conflicting" => Ok(Class::Conflicting),
        "full" => Ok(Class::Full),
        "partial" => Ok(Class::Partial),
        "exempted" => Ok(Class::Exempted),
        "unvetted" => Ok(Class::Unvetted),
        _ => Err(Fault::NotUnderstood),
    }
}

fn moves_text(alloc: Global, moves: &[Move]) -> Result<String, Fault> {
    let mut told = String::new(alloc);
    for change in moves {
        let pair = &change.pair;
        let before = class_word(change.before);
        let after = class_word(change.after);
        let text = format!(in alloc;
            "[{} {} {} {before} {after}]",
            pair.package, pair.version, pair.criterion
        )?;
        told.push_str(text.as_str())?;
    }
    Ok(told)
}

/// A class's word, or `undemanded` for none.
pub fn class_word(class: Option<Class>) -> &'static str {
    match class {
        Some(class) => class.word(),
        None => "undemanded",
    }
}
