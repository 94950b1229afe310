//! Sets of names in a command document.
ghost use Rattle.std.specs.Prelude.{◌≡◌, IfOk};
ghost use Rattle.toml.specs.View.{table_view, view};
ghost use Rattle.vet_base.specs.Gives.{Gives};
ghost use Rattle.vet_documents.specs.DocumentField.{names, package_names};
ghost use Rattle.vet_files.specs.Field.{optional, required};

use crate::document_field::Worded;
use crate::document_keys::COMMAND;
use std::alloc::{AllocError, Global};
use toml::{Table, Value};
use vet_base::name::Name;
use vet_base::names::Names;
use vet_base::package_names::PackageNames;
use vet_base::refusal::Refusal;
use vet_files::field::sets::{read_items, read_one_or_list};
use vet_files::field::{fault, value_at};

/// The names of a required key of a document.
pub(crate) fn names_at(alloc: Global, document: &Table, key: &str) -> Result<Names, Refusal>
    ensures { Gives (λ n. n) (required names COMMAND.now key.now (table_view document.now)) result }
{
    match value_at(document, key) {
        Some(value) => read_names(alloc, COMMAND, key, value),
        None => Err(fault(alloc, COMMAND, key)),
    }
}

/// The names of a key of a document, or `None` if the key is absent.
pub(crate) fn names_if_any(
    alloc: Global,
    document: &Table,
    key: &str,
) -> Result<Option<Names>, Refusal>
    ensures { Gives (λ n. n) (optional names COMMAND.now key.now (table_view document.now)) result }
{
    match value_at(document, key) {
        Some(value) => Ok(Some(read_names(alloc, COMMAND, key, value)?)),
        None => Ok(None),
    }
}

/// The names of packages of a key of a document, or `None` if the key is absent.
pub(crate) fn packages_if_any(
    alloc: Global,
    document: &Table,
    key: &str,
) -> Result<Option<PackageNames>, Refusal>
    ensures { Gives (λ n. n) (optional package_names COMMAND.now key.now (table_view document.now)) result }
{
    match value_at(document, key) {
        Some(value) => Ok(Some(read_packages(alloc, COMMAND, key, value)?)),
        None => Ok(None),
    }
}

/// The names that a value in the table at a path states: one, or a list of them.
pub(crate) fn read_names(
    alloc: Global,
    path: &str,
    key: &str,
    value: &Value,
) -> Result<Names, Refusal>
    ensures { Gives (λ n. n) (names path.now key.now (view value.now)) result }
{
    let found: Vec<Worded<Name>> = read_one_or_list(alloc, path, key, value)?;
    let names = unworded(alloc, found)?;
    Ok(Names::of(alloc, names)?)
}

/// The names of packages that a value in the table at a path states: a list of them.
fn read_packages(
    alloc: Global,
    path: &str,
    key: &str,
    value: &Value,
) -> Result<PackageNames, Refusal>
    ensures { Gives (λ n. n) (package_names path.now key.now (view value.now)) result }
{
    let Some(items) = value.as_array() else {
        return Err(fault(alloc, path, key));
    };
    let found = read_items(alloc, path, key, items)?;
    let names = unworded(alloc, found)?;
    Ok(PackageNames::of(alloc, names)?)
}

/// The values themselves, in their order.
fn unworded<V: Drop>(alloc: Global, found: Vec<Worded<V>>) -> Result<Vec<V>, AllocError>
    ensures { IfOk result (λ vs. vs.items ≡ found.items) }
{
    let mut values = Vec::new(alloc);
    'found: for worded in found {
        values.push(worded.value)?;
    }
    Ok(values)
}
