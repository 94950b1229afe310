//! The values at the keys of a command document.
//!
//! A document is read by the readers of the files' tables, except that a text which is not a name, version,
//! requirement, day or delta has a refusal of its own. So these values are a type of field beside those of the files.
ghost use Rattle.std.specs.Prelude.{◌≡◌, IfOk, option_and_then};
ghost use Rattle.toml.specs.Data.{as_integer, string};
ghost use Rattle.toml.specs.View.{table_view, view};
ghost use Rattle.vet_base.specs.Gives.{Gives};
ghost use Rattle.vet_base.specs.declared.refusal.Refusal.TheVariants.{BadDelta, BadName, BadRequirement, BadVersion};
ghost use Rattle.vet_base.specs.declared.refusal.Refusal.{Refusal};
ghost use Rattle.vet_files.specs.Field.{optional, required};
ghost use Rattle.vet_documents.specs.DocumentField.{a_day, a_number, a_policy_key, a_word, any_text, number_of};

use crate::document_keys::COMMAND;
use std::alloc::{AllocError, Global};
use std::marker::Model;
use toml::{Table, Value};
use vet_base::day::Day;
use vet_base::delta::Delta;
use vet_base::name::{Name, PackageName};
use vet_base::refusal::Refusal;
use vet_base::req::Req;
use vet_base::version::VetVersion;
use vet_demand::policy_key::PolicyKey;
use vet_files::field::{Field, FromText, day_of, fault, required, value_at};

/// A type whose values are texts in a document. A malformed text has a refusal of its own.
pub(crate) trait DocumentWord: FromText {
    /// The refusal of a malformed text.
    ghost refusal: { Refusal };

    fn refused() -> Refusal
        ensures { result ≡ refusal };
}

impl DocumentWord for Name {
    ghost refusal = { BadName };

    fn refused() -> Refusal {
        Refusal::BadName
    }
}

impl DocumentWord for PackageName {
    ghost refusal = { BadName };

    fn refused() -> Refusal {
        Refusal::BadName
    }
}

impl DocumentWord for VetVersion {
    ghost refusal = { BadVersion };

    fn refused() -> Refusal {
        Refusal::BadVersion
    }
}

impl DocumentWord for Req {
    ghost refusal = { BadRequirement };

    fn refused() -> Refusal {
        Refusal::BadRequirement
    }
}

impl DocumentWord for Delta {
    ghost refusal = { BadDelta };

    fn refused() -> Refusal {
        Refusal::BadDelta
    }
}

/// A value as it is written in a document.
#[derive(Drop)]
pub(crate) struct Worded<V> {
    pub(crate) value: V,
}

impl<V> Model for Worded<V> {
    ghost Value = { V };

    ghost view = { λ w. w.value };

    ghost inverse = { λ v. record { value = v } };
}

impl<V: DocumentWord> Field for Worded<V> {
    ghost told = { a_word V.reads V.refusal };

    ghost written = { λ v. string (V.printed v) };

    fn read(alloc: Global, path: &str, key: &str, value: &Value) -> Result<Worded<V>, Refusal> {
        let Some(text) = value.as_str() else {
            return Err(fault(alloc, path, key));
        };
        match V::from_text(alloc, text)? {
            Some(value) => Ok(Worded { value }),
            None => Err(V::refused()),
        }
    }

    fn write(&self, alloc: Global) -> Result<Value, AllocError> {
        Ok(Value::String(self.value.to_text(alloc)?))
    }
}

/// The value of a required key of the table at a path. Refused: the type's own refusal if its text is malformed;
/// `FieldRefused` if the key is absent or its value not a text; `NoMemory`.
pub(crate) fn word_at<V: DocumentWord>(
    alloc: Global,
    path: &str,
    table: &Table,
    key: &str,
) -> Result<V, Refusal>
    ensures { Gives (λ v. v) (required (a_word V.reads V.refusal) path.now key.now (table_view table.now)) result }
{
    let Worded { value } = required(alloc, path, table, key)?;
    Ok(value)
}

/// The text of a required key of a document, however long it is.
pub(crate) fn text_at<'a>(alloc: Global, document: &'a Table, key: &str) -> Result<&'a str, Refusal>
    ensures { Gives (λ text. text.now) (required any_text COMMAND.now key.now (table_view document.now)) result }
{
    let Some(value) = value_at(document, key) else {
        return Err(fault(alloc, COMMAND, key));
    };
    match value.as_str() {
        Some(text) => Ok(text),
        None => Err(fault(alloc, COMMAND, key)),
    }
}

/// The policy key that is the value of a required key of a document.
pub(crate) fn policy_key_at(
    alloc: Global,
    document: &Table,
    key: &str,
) -> Result<PolicyKey, Refusal>
    ensures { Gives (λ k. k) (required a_policy_key COMMAND.now key.now (table_view document.now)) result }
{
    let text = text_at(alloc, document, key)?;
    PolicyKey::parse(alloc, text)
}

/// The day of a required key of the table at a path.
pub(crate) fn day_at(alloc: Global, path: &str, table: &Table, key: &str) -> Result<Day, Refusal>
    ensures { Gives (λ d. d) (required a_day path.now key.now (table_view table.now)) result }
{
    match value_at(table, key) {
        Some(value) => read_day(alloc, path, key, value),
        None => Err(fault(alloc, path, key)),
    }
}

/// The day of a key of the table at a path, or `None` if the key is absent. Refused: `BadDay` for a text that is not a
/// day; `FieldRefused` for a value that is neither a text nor a local date; `NoMemory`.
pub(crate) fn day_if_any(
    alloc: Global,
    path: &str,
    table: &Table,
    key: &str,
) -> Result<Option<Day>, Refusal>
    ensures { Gives (λ d. d) (optional a_day path.now key.now (table_view table.now)) result }
{
    match value_at(table, key) {
        Some(value) => Ok(Some(read_day(alloc, path, key, value)?)),
        None => Ok(None),
    }
}

/// The day that a value states, as a text or as a local date.
fn read_day(alloc: Global, path: &str, key: &str, value: &Value) -> Result<Day, Refusal>
    ensures { Gives (λ d. d) (a_day path.now key.now (view value.now)) result }
{
    if let Value::String(text) = value {
        return Day::parse(text.as_str());
    }
    match day_of(value) {
        Some(day) => Ok(day),
        None => Err(fault(alloc, path, key)),
    }
}

/// The number of an entry or a review, at a required key of a document.
pub(crate) fn number_at(alloc: Global, document: &Table, key: &str) -> Result<u64, Refusal>
    ensures { Gives (λ n. n) (required a_number COMMAND.now key.now (table_view document.now)) result }
{
    let Some(value) = value_at(document, key) else {
        return Err(fault(alloc, COMMAND, key));
    };
    match number_of(value) {
        Some(number) => Ok(number),
        None => Err(fault(alloc, COMMAND, key)),
    }
}

/// The number that a value states: a whole number from 1.
fn number_of(value: &Value) -> Option<u64>
    ensures { result ≡ option_and_then number_of (as_integer (view value.now)) }
{
    let number = value.as_integer()?;
    match u64::try_from(number) {
        Ok(0) => None,
        Ok(number) => Some(number),
        Err(_) => None,
    }
}
