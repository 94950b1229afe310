//! The entries of the table `audits`.
ghost use Rattle.std.specs.Prelude.{◌≡◌, Ok, Some, option_map};
ghost use Rattle.toml.specs.View.{table_view, view};
ghost use Rattle.vet_base.specs.Gives.{Gives};
ghost use Rattle.vet_files.specs.Audits.{absent, audit_of, audit_of_subject, audit_told, first_key, has, is_no};
ghost use Rattle.vet_files.specs.Audits.{is_withheld, own_entry, subject_told};
ghost use Rattle.vet_files.specs.Keys.{unknown_keys};
ghost use Rattle.vet_files.specs.Lists.{found_one, skipped, table_told};

use crate::field::{fault, optional, required, value_at};
use crate::found::Found;
use crate::keys::{
    CRITERIA, DELTA, IMPORTABLE, NOTES, TableKind, VERSION, VIOLATION, WHO, unknown_keys,
};
use crate::notices::Notices;
use crate::read::package_tables::PackageTable;
use crate::read::subject::{Subject, SubjectKey};
use crate::read::whose::Whose;
use std::alloc::Global;
use toml::{Table, Value};
use vet_base::names::Names;
use vet_base::refusal::Refusal;
use vet_base::text::Text;
use vet_base::texts::Texts;
use vet_entries::entry::{Entry, Source};
use vet_entries::kind::{Audit, Kind};

/// The audit of a table. The table is skipped if it has none, or if a peer withholds it.
pub(crate) fn read_audit(
    alloc: Global,
    whose: Whose,
    at: &PackageTable<'_>,
) -> Result<Found<Option<Entry>>, Refusal>
    ensures { Gives (λ f. f) (table_told (audit_told whose) at.now) result }
{
    if is_withheld(whose, at.table) {
        return Ok(skipped());
    }
    match first_key(at.table) {
        Some(key) => read_audit_by(alloc, at, key),
        None => Ok(skipped()),
    }
}

/// An entry that is skipped.
pub(crate) fn skipped<T: Drop>() -> Found<Option<T>>
    ensures { result ≡ skipped }
{
    Found {
        content: None,
        notices: Notices::skipped(),
    }
}

/// Whether a table has a key.
pub(crate) fn has(table: &Table, key: &str) -> bool
    ensures { result ≡ has (table_view table.now) key.now }
{
    value_at(table, key).is_some()
}

/// Whether a peer keeps an entry to itself.
fn is_withheld(whose: Whose, table: &Table) -> bool
    ensures { result ≡ is_withheld whose (table_view table.now) }
{
    match whose {
        Whose::Ours => false,
        Whose::Peers => is_no(value_at(table, IMPORTABLE)),
    }
}

/// Whether a value is there and is `false`.
fn is_no(value: Option<&Value>) -> bool
    ensures { result ≡ is_no (option_map (λ v. view v.now) value.entry) }
{
    match value {
        Some(Value::Boolean(flag)) => !*flag,
        _ => false,
    }
}

/// The first of the three keys that give the subject of an audit.
fn first_key(table: &Table) -> Option<SubjectKey>
    ensures { result ≡ first_key (table_view table.now) }
{
    if has(table, VERSION) {
        return Some(SubjectKey::Version);
    }
    if has(table, DELTA) {
        return Some(SubjectKey::Delta);
    }
    if has(table, VIOLATION) {
        return Some(SubjectKey::Violation);
    }
    None
}

/// Refuses a table that has a second one of the three keys.
fn refuse_second(alloc: Global, path: &str, table: &Table, key: &str) -> Result<(), Refusal>
    ensures { Gives (λ u. u) (absent path.now key.now (table_view table.now)) result }
{
    if has(table, key) {
        return Err(fault(alloc, path, key));
    }
    Ok(())
}

/// The subject of an audit, by the first of the three keys.
fn read_subject(
    alloc: Global,
    path: &str,
    table: &Table,
    key: SubjectKey,
) -> Result<Subject, Refusal>
    ensures { Gives (λ s. s) (subject_told path.now (table_view table.now) key) result }
{
    match key {
        SubjectKey::Version => {
            let version = required(alloc, path, table, VERSION)?;
            refuse_second(alloc, path, table, DELTA)?;
            refuse_second(alloc, path, table, VIOLATION)?;
            Ok(Subject::Full(version))
        }
        SubjectKey::Delta => {
            let delta = required(alloc, path, table, DELTA)?;
            refuse_second(alloc, path, table, VIOLATION)?;
            Ok(Subject::Delta(delta))
        }
        SubjectKey::Violation => {
            let req = required(alloc, path, table, VIOLATION)?;
            Ok(Subject::Violation(req))
        }
    }
}

/// The audit of a table whose subject is at this key.
fn read_audit_by(
    alloc: Global,
    at: &PackageTable<'_>,
    key: SubjectKey,
) -> Result<Found<Option<Entry>>, Refusal>
    ensures { Gives (λ f. f)
        (audit_of at.now.«package».now at.now.path.now (table_view at.now.table.now) (Some key)) result }
{
    let criteria = required(alloc, at.path, at.table, CRITERIA)?;
    let subject = read_subject(alloc, at.path, at.table, key)?;
    read_audit_of(alloc, at, criteria, subject)
}

/// The audit of a table whose criteria and subject were read.
fn read_audit_of(
    alloc: Global,
    at: &PackageTable<'_>,
    criteria: Names,
    subject: Subject,
) -> Result<Found<Option<Entry>>, Refusal>
    ensures { Gives (λ f. f) (audit_of_subject at.now.«package».now at.now.path.now (table_view at.now.table.now)
        criteria subject) result }
{
    let who: Option<Texts> = optional(alloc, at.path, at.table, WHO)?;
    let notes = optional(alloc, at.path, at.table, NOTES)?;
    let importable = optional(alloc, at.path, at.table, IMPORTABLE)?;
    let audit = Audit {
        who: who.unwrap_or(Texts::new(alloc)),
        importable,
    };
    found_entry(
        at,
        TableKind::Audit,
        subject.with_audit(audit),
        criteria,
        notes,
    )
}

/// The result of reading a table of some kind: an own entry, and the count of keys that have no meaning.
pub(crate) fn found_entry(
    at: &PackageTable<'_>,
    which: TableKind,
    kind: Kind,
    criteria: Names,
    notes: Option<Text>,
) -> Result<Found<Option<Entry>>, Refusal>
    ensures { Gives (λ f. f) (Ok (found_one (own_entry at.now.«package».now kind criteria notes)
        (unknown_keys which (table_view at.now.table.now)))) result }
{
    let notices = unknown_keys(which, at.table)?;
    let entry = Entry {
        source: Source::Own,
        package: at.package.clone()?,
        kind,
        criteria,
        notes,
    };
    Ok(Found {
        content: Some(entry),
        notices,
    })
}
