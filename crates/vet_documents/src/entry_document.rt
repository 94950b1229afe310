//! The documents of the commands to entries.
ghost use Rattle.std.specs.Prelude.{◌≡◌};
ghost use Rattle.toml.specs.View.{table_view};
ghost use Rattle.vet_base.specs.Gives.{Gives};
ghost use Rattle.vet_documents.specs.DocumentField.{only};
ghost use Rattle.vet_documents.specs.EntryDocument.{add_entry_told, audited_told, audit_keys, delta_told};
ghost use Rattle.vet_documents.specs.EntryDocument.{drop_entry_told, entry_keys, entry_of, exemption_keys};
ghost use Rattle.vet_documents.specs.EntryDocument.{exemption_told, full_told, kind_told, stated_told, trusted_keys};
ghost use Rattle.vet_documents.specs.EntryDocument.{trusted_told, violation_told, wildcard_keys, wildcard_of};
ghost use Rattle.vet_documents.specs.EntryDocument.{wildcard_told, window_told};

use crate::command_word::KindWord;
use crate::document_field::{day_at, day_if_any, number_at, text_at, word_at};
use crate::document_keys::{COMMAND, KIND, LAST_DAY, NUMBER, PACKAGE, refuse_others};
use crate::names_at::names_at;
use std::alloc::Global;
use toml::Table;
use vet_base::name::PackageName;
use vet_base::names::Names;
use vet_base::refusal::Refusal;
use vet_base::text::Text;
use vet_base::texts::Texts;
use vet_entries::entry::{Entry, Source};
use vet_entries::kind::{Audit, Grant, Kind, Window};
use vet_files::field::{fault, optional, required};
use vet_files::keys::{
    CRITERIA, DELTA, END, IMPORTABLE, NOTES, RENEW, START, SUGGEST, USER_ID, VERSION, VIOLATION,
    WHO,
};
use vet_register::command::Action;

/// Reads the command that adds the entry of a document.
pub(crate) fn read_add_entry(alloc: Global, document: &Table) -> Result<Action, Refusal>
    ensures { Gives (λ action. action) (add_entry_told (table_view document.now)) result }
{
    let package = word_at(alloc, COMMAND, document, PACKAGE)?;
    let kind = read_kind(alloc, document)?;
    let stated = read_stated(alloc, document, kind)?;
    refuse_unknown(alloc, document, kind)?;
    Ok(Action::AddEntry(stated.entry_of(package)))
}

/// Reads the command that drops the entry of a number.
pub(crate) fn read_drop_entry(alloc: Global, document: &Table) -> Result<Action, Refusal>
    ensures { Gives (λ action. action) (drop_entry_told (table_view document.now)) result }
{
    let number = number_at(alloc, document, NUMBER)?;
    refuse_others(alloc, COMMAND, document, &[COMMAND, NUMBER])?;
    Ok(Action::DropEntry(number))
}

/// The parts of an entry beside its package.
#[derive(Drop)]
struct Stated {
    kind: Kind,
    criteria: Names,
    notes: Option<Text>,
}

impl Stated {
    /// One's own entry for a package, with these parts.
    fn entry_of(self, package: PackageName) -> Entry
        ensures { result ≡ entry_of «package» self }
    {
        let Stated {
            kind,
            criteria,
            notes,
        } = self;
        Entry {
            source: Source::Own,
            package,
            kind,
            criteria,
            notes,
        }
    }
}

/// The kind of an entry, by its word.
fn read_kind(alloc: Global, document: &Table) -> Result<KindWord, Refusal>
    ensures { Gives (λ k. k) (kind_told (table_view document.now)) result }
{
    let word = text_at(alloc, document, KIND)?;
    match KindWord::of_word(word) {
        Some(kind) => Ok(kind),
        None => Err(fault(alloc, COMMAND, KIND)),
    }
}

/// The parts of an entry of a kind beside its package.
fn read_stated(alloc: Global, document: &Table, kind: KindWord) -> Result<Stated, Refusal>
    ensures { Gives (λ s. s) (stated_told (table_view document.now) kind) result }
{
    match kind {
        KindWord::Full => read_full(alloc, document),
        KindWord::Delta => read_delta(alloc, document),
        KindWord::Violation => read_violation(alloc, document),
        KindWord::Wildcard => read_wildcard(alloc, document),
        KindWord::Trusted => read_trusted(alloc, document),
        KindWord::Exemption => read_exemption(alloc, document),
    }
}

/// Refuses the least key that no entry of a kind has.
fn refuse_unknown(alloc: Global, document: &Table, kind: KindWord) -> Result<(), Refusal>
    ensures { Gives (λ u. u) (only (entry_keys kind) (table_view document.now)) result }
{
    match kind {
        KindWord::Full => refuse_beside_audit(alloc, document, VERSION),
        KindWord::Delta => refuse_beside_audit(alloc, document, DELTA),
        KindWord::Violation => refuse_beside_audit(alloc, document, VIOLATION),
        KindWord::Wildcard => refuse_beside_wildcard(alloc, document),
        KindWord::Trusted => refuse_beside_trusted(alloc, document),
        KindWord::Exemption => refuse_beside_exemption(alloc, document),
    }
}

/// Refuses the least key that no audit with its subject at this key has.
fn refuse_beside_audit(alloc: Global, document: &Table, subject: &str) -> Result<(), Refusal>
    ensures { Gives (λ u. u) (only (audit_keys subject.now) (table_view document.now)) result }
{
    let known = [
        COMMAND, PACKAGE, KIND, subject, CRITERIA, WHO, NOTES, IMPORTABLE,
    ];
    refuse_others(alloc, COMMAND, document, &known)
}

/// Refuses the least key that no wildcard has.
fn refuse_beside_wildcard(alloc: Global, document: &Table) -> Result<(), Refusal>
    ensures { Gives (λ u. u) (only wildcard_keys (table_view document.now)) result }
{
    let known = [
        COMMAND, PACKAGE, KIND, USER_ID, START, END, CRITERIA, WHO, NOTES, RENEW,
    ];
    refuse_others(alloc, COMMAND, document, &known)
}

/// Refuses the least key that no trusted publisher has.
fn refuse_beside_trusted(alloc: Global, document: &Table) -> Result<(), Refusal>
    ensures { Gives (λ u. u) (only trusted_keys (table_view document.now)) result }
{
    let known = [COMMAND, PACKAGE, KIND, USER_ID, START, END, CRITERIA, NOTES];
    refuse_others(alloc, COMMAND, document, &known)
}

/// Refuses the least key that no exemption has.
fn refuse_beside_exemption(alloc: Global, document: &Table) -> Result<(), Refusal>
    ensures { Gives (λ u. u) (only exemption_keys (table_view document.now)) result }
{
    let known = [
        COMMAND, PACKAGE, KIND, VERSION, CRITERIA, NOTES, SUGGEST, LAST_DAY,
    ];
    refuse_others(alloc, COMMAND, document, &known)
}

/// The parts of an audit beside its subject.
#[derive(Drop)]
struct Audited {
    criteria: Names,
    notes: Option<Text>,
    audit: Audit,
}

/// Reads the parts of an audit beside its subject.
fn read_audited(alloc: Global, document: &Table) -> Result<Audited, Refusal>
    ensures { Gives (λ a. a) (audited_told (table_view document.now)) result }
{
    let criteria = names_at(alloc, document, CRITERIA)?;
    let who: Option<Texts> = optional(alloc, COMMAND, document, WHO)?;
    let notes = optional(alloc, COMMAND, document, NOTES)?;
    let importable = optional(alloc, COMMAND, document, IMPORTABLE)?;
    let audit = Audit {
        who: who.unwrap_or(Texts::new(alloc)),
        importable,
    };
    Ok(Audited {
        criteria,
        notes,
        audit,
    })
}

/// The audit of a version.
fn read_full(alloc: Global, document: &Table) -> Result<Stated, Refusal>
    ensures { Gives (λ s. s) (full_told (table_view document.now)) result }
{
    let version = word_at(alloc, COMMAND, document, VERSION)?;
    let Audited {
        criteria,
        notes,
        audit,
    } = read_audited(alloc, document)?;
    Ok(Stated {
        kind: Kind::Full(version, audit),
        criteria,
        notes,
    })
}

/// The audit of a delta.
fn read_delta(alloc: Global, document: &Table) -> Result<Stated, Refusal>
    ensures { Gives (λ s. s) (delta_told (table_view document.now)) result }
{
    let delta = word_at(alloc, COMMAND, document, DELTA)?;
    let Audited {
        criteria,
        notes,
        audit,
    } = read_audited(alloc, document)?;
    Ok(Stated {
        kind: Kind::Delta(delta, audit),
        criteria,
        notes,
    })
}

/// A violation.
fn read_violation(alloc: Global, document: &Table) -> Result<Stated, Refusal>
    ensures { Gives (λ s. s) (violation_told (table_view document.now)) result }
{
    let req = word_at(alloc, COMMAND, document, VIOLATION)?;
    let Audited {
        criteria,
        notes,
        audit,
    } = read_audited(alloc, document)?;
    Ok(Stated {
        kind: Kind::Violation(req, audit),
        criteria,
        notes,
    })
}

/// The window of a document.
fn read_window(alloc: Global, document: &Table) -> Result<Window, Refusal>
    ensures { Gives (λ w. w) (window_told (table_view document.now)) result }
{
    let user = required(alloc, COMMAND, document, USER_ID)?;
    let first = day_at(alloc, COMMAND, document, START)?;
    let last = day_at(alloc, COMMAND, document, END)?;
    Ok(Window { user, first, last })
}

/// A wildcard.
fn read_wildcard(alloc: Global, document: &Table) -> Result<Stated, Refusal>
    ensures { Gives (λ s. s) (wildcard_told (table_view document.now)) result }
{
    let window = read_window(alloc, document)?;
    read_wildcard_of(alloc, document, window)
}

/// The wildcard of a window.
fn read_wildcard_of(alloc: Global, document: &Table, window: Window) -> Result<Stated, Refusal>
    ensures { Gives (λ s. s) (wildcard_of (table_view document.now) window) result }
{
    let criteria = names_at(alloc, document, CRITERIA)?;
    let who: Option<Texts> = optional(alloc, COMMAND, document, WHO)?;
    let notes = optional(alloc, COMMAND, document, NOTES)?;
    let renew = optional(alloc, COMMAND, document, RENEW)?;
    let grant = Grant {
        who: who.unwrap_or(Texts::new(alloc)),
        renew,
    };
    Ok(Stated {
        kind: Kind::Wildcard(window, grant),
        criteria,
        notes,
    })
}

/// A trusted publisher.
fn read_trusted(alloc: Global, document: &Table) -> Result<Stated, Refusal>
    ensures { Gives (λ s. s) (trusted_told (table_view document.now)) result }
{
    let window = read_window(alloc, document)?;
    let criteria = names_at(alloc, document, CRITERIA)?;
    let notes = optional(alloc, COMMAND, document, NOTES)?;
    Ok(Stated {
        kind: Kind::Trusted(window),
        criteria,
        notes,
    })
}

/// An exemption.
fn read_exemption(alloc: Global, document: &Table) -> Result<Stated, Refusal>
    ensures { Gives (λ s. s) (exemption_told (table_view document.now)) result }
{
    let version = word_at(alloc, COMMAND, document, VERSION)?;
    let criteria = names_at(alloc, document, CRITERIA)?;
    let notes = optional(alloc, COMMAND, document, NOTES)?;
    let suggest = optional(alloc, COMMAND, document, SUGGEST)?;
    let last_day = day_if_any(alloc, COMMAND, document, LAST_DAY)?;
    Ok(Stated {
        kind: Kind::Exemption {
            version,
            suggest,
            last_day,
        },
        criteria,
        notes,
    })
}
