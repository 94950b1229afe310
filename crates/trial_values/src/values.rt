//! Lines that ask for a value: of names, texts and the closure of criteria.
//!
//! `name TEXT`, `package TEXT`, `key TEXT`, `version TEXT`, `delta TEXT`, `requirement TEXT`, `day TEXT` and
//! `policy-key TEXT` print the value. `texts [TEXT ..]` prints a set of texts, how many it holds and
//! each in brackets, and `text-of N` how many bytes a text of N letters has. `closure NAME ..` prints the names of the
//! closure in the register's table. The other modules have the lines of other values; those of
//! `steps` and `searches` also ask for what the register holds.

use crate::days::{day_number, day_of_parts, day_order, plus};
use crate::fault::Fault;
use crate::files::peer_file;
use crate::line::{one, words_of};
use crate::lists::{edited, names_of, packages_of, pairs_of, push_in_brackets, texts_of, touched};
use crate::name_lists::names;
use crate::projects::{project, table_word};
use crate::searches::{extended, searched};
use crate::sets::sets;
use crate::steps::{condemned_criteria, criteria_text, steps, violations};
use crate::tables::{moves, table, table_of};
use crate::versions::{equal, matches, order};
use crate::written::{written_audits, written_config, written_imports, written_project};
use std::alloc::Global;
use std::fmt::Display;
use vet_base::day::Day;
use vet_base::delta::Delta;
use vet_base::key_text::KeyText;
use vet_base::name::{Name, PackageName};
use vet_base::refusal::Refusal;
use vet_base::req::Req;
use vet_base::text::Text;
use vet_base::texts::Texts;
use vet_base::version::VetVersion;
use vet_demand::policy_key::PolicyKey;
use vet_entries::facts::EntryFacts;

/// What is printed for a line that asks for a value. Refused: what its texts are refused for, and `NoMemory`.
pub fn value(alloc: Global, facts: &EntryFacts, line: &str) -> Result<String, Fault> {
    // a table is of any bytes, and the words of other lines are texts
    if let Some(word) = table_word(line) {
        return project(alloc, word);
    }
    let words = words_of(alloc, line)?;
    match words.as_slice() {
        [word, texts @ ..] => value_of(alloc, facts, word.as_str(), texts),
        [] => Err(Fault::NotUnderstood),
    }
}

// What is printed for a line of this word.
fn value_of(
    alloc: Global,
    facts: &EntryFacts,
    word: &str,
    texts: &[String],
) -> Result<String, Fault> {
    match word {
        "texts" => set_of_texts(alloc, texts),
        "closure" => closure(alloc, facts, texts),
        "steps" => steps(alloc, facts, texts),
        "violations" => violations(alloc, facts, texts),
        "condemned" => condemned_criteria(alloc, facts, texts),
        "search" => searched(alloc, facts, texts),
        "extend" => extended(alloc, facts, texts),
        _ => order_value(alloc, word, texts),
    }
}

// What is printed for a line that asks for several versions, requirements, days or files.
fn order_value(alloc: Global, word: &str, texts: &[String]) -> Result<String, Fault> {
    match word {
        "order" => order(alloc, texts),
        "matches" => matches(alloc, texts),
        "equal" => equal(alloc, texts),
        "day-order" => day_order(alloc, texts),
        "day-of-parts" => day_of_parts(alloc, texts),
        "plus" => plus(alloc, texts),
        "written-imports" => written_imports(alloc, texts),
        _ => list_value(alloc, word, texts),
    }
}

// What is printed for a line that asks for lists, sets, tables or moves.
fn list_value(alloc: Global, word: &str, texts: &[String]) -> Result<String, Fault> {
    match word {
        "names-of" => names_of(alloc, texts),
        "packages-of" => packages_of(alloc, texts),
        "texts-of" => texts_of(alloc, texts),
        "pairs-of" => pairs_of(alloc, texts),
        "edited" => edited(alloc, texts),
        "touched" => touched(alloc, texts),
        "sets" => sets(alloc, texts),
        "table-of" => table_of(alloc, texts),
        "table" => table(alloc, texts),
        "moves" => moves(alloc, texts),
        _ => text_value(alloc, word, one(texts)?),
    }
}

// What is printed for a line of one text.
fn text_value(alloc: Global, word: &str, text: &str) -> Result<String, Fault> {
    match word {
        "name" => printed(alloc, Name::parse(alloc, text)),
        "package" => printed(alloc, PackageName::parse(alloc, text)),
        "version" => printed(alloc, VetVersion::parse(alloc, text)),
        "delta" => printed(alloc, Delta::parse(alloc, text)),
        "requirement" => printed(alloc, Req::parse(alloc, text)),
        "day" => printed(alloc, Day::parse(text)),
        "policy-key" => printed(alloc, PolicyKey::parse(alloc, text)),
        _ => file_value(alloc, word, text),
    }
}

// What is printed for a line of one text that asks for what a file holds, or for a text, a key or a number.
fn file_value(alloc: Global, word: &str, text: &str) -> Result<String, Fault> {
    match word {
        "key" => key(alloc, text),
        "text-of" => text_of(alloc, text),
        "day-number" => day_number(alloc, text),
        "peer-file" => peer_file(alloc, text),
        "written-audits" => written_audits(alloc, text),
        "written-config" => written_config(alloc, text),
        "written-project" => written_project(alloc, text),
        _ => Err(Fault::NotUnderstood),
    }
}

// A value that was read, as it is printed.
fn printed<T: Display + Drop>(alloc: Global, value: Result<T, Refusal>) -> Result<String, Fault> {
    Ok(value?.to_string(alloc)?)
}

fn key(alloc: Global, text: &str) -> Result<String, Fault> {
    Ok(KeyText::told(alloc, text)?.to_string(alloc)?)
}

fn set_of_texts(alloc: Global, texts: &[String]) -> Result<String, Fault> {
    let mut set = Texts::new(alloc);
    for text in texts {
        add_text(alloc, &mut set, text.as_str())?;
    }
    in_brackets(alloc, &set)
}

fn add_text(alloc: Global, set: &mut Texts, text: &str) -> Result<(), Fault> {
    let text = Text::parse(alloc, text)?;
    Ok(set.insert(text)?)
}

// How many texts a set holds, and each in brackets.
fn in_brackets(alloc: Global, set: &Texts) -> Result<String, Fault> {
    let mut told = set.len().to_string(alloc)?;
    for text in set.as_slice() {
        told.push_str(" ")?;
        push_in_brackets(&mut told, text.as_str())?;
    }
    Ok(told)
}

// How many bytes a text of so many letters `a` has.
fn text_of(alloc: Global, length: &str) -> Result<String, Fault> {
    let Ok(length) = length.parse::<u32>() else {
        return Err(Fault::NotUnderstood);
    };
    let mut letters = String::new(alloc);
    add_letters(&mut letters, length)?;
    let text = Text::parse(alloc, letters.as_str())?;
    Ok(text.as_str().len().to_string(alloc)?)
}

fn add_letters(letters: &mut String, count: u32) -> Result<(), Fault> {
    for _ in 0..count {
        letters.push_str("a")?;
    }
    Ok(())
}

fn closure(alloc: Global, facts: &EntryFacts, texts: &[String]) -> Result<String, Fault> {
    let table = facts.criteria();
    let closure = table.closure(&names(alloc, texts)?)?;
    criteria_text(alloc, table, &closure)
}
