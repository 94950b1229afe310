//! Lines that ask for the files of what the register holds.
//!
//! `audits-file`, `config-file` and `imports-file` are whole lines. Each prints the text of that file, as the word that
//! writes it. Other lines are passed on to the modules of their values.

use crate::held_desk::restored_desk;
use crate::packed::{is_packed, packed_value};
use std::alloc::Global;
use trial_values::fault::Fault;
use trial_values::line::{word_of, words_of};
use trial_values::values::value;
use vet_base::refusal::Refusal;
use vet_entries::facts::EntryFacts;
use vet_files::audits_file::write_audits;
use vet_files::config_file::write_config;
use vet_files::imports_file::write_imports;
use vet_graph::keeper::Keeper;
use vet_register::register::Register;

/// The answer to a line that gives no command: the text of a file of what is held, or a value. Refused: what the line's
/// texts are refused for, and `NoMemory`.
pub fn line_text<K: Keeper>(
    alloc: Global,
    register: &Register<K>,
    line: &str,
) -> Result<String, Fault> {
    match line {
        "audits-file" => audits_file(alloc, register),
        "config-file" => config_file(alloc, register),
        "imports-file" => imports_file(alloc, register),
        "restored-desk" => restored_desk(alloc),
        _ => value_text(alloc, register.facts(), line),
    }
}

fn value_text(alloc: Global, facts: &EntryFacts, line: &str) -> Result<String, Fault> {
    if !is_packed(line) {
        return value(alloc, facts, line);
    }
    let words = words_of(alloc, line)?;
    packed_value(alloc, words.as_slice())
}

fn audits_file<K: Keeper>(alloc: Global, register: &Register<K>) -> Result<String, Fault> {
    let held = register.held_audits(alloc)?;
    word_written(alloc, write_audits(alloc, &held))
}

fn config_file<K: Keeper>(alloc: Global, register: &Register<K>) -> Result<String, Fault> {
    let held = register.held_config(alloc)?;
    word_written(alloc, write_config(alloc, &held))
}

fn imports_file<K: Keeper>(alloc: Global, register: &Register<K>) -> Result<String, Fault> {
    let held = register.held_imports(alloc)?;
    word_written(
        alloc,
        write_imports(alloc, held.settings.as_slice(), &held.content),
    )
}

// The word that writes a text.
fn word_written(alloc: Global, text: Result<String, Refusal>) -> Result<String, Fault> {
    word_of(alloc, text?.as_str())
}
