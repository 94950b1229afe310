//! The tables in which entries are written.
ghost use Rattle.std.specs.Prelude.{◌≡◌, true, codes, IfOk, None, Some};
ghost use Rattle.toml.specs.Data.{no_members};
ghost use Rattle.toml.specs.View.{table_view};
ghost use Rattle.vet_base.specs.Name.{is_package_name};
ghost use Rattle.vet_files.specs.EntryTables.{audit_table, entry_table};
ghost use Rattle.vet_files.specs.Field.{names};
ghost use Rattle.vet_files.specs.OfKind.{of_kind};
ghost use Rattle.vet_files.specs.ReadAgain.{IsReadAs, ReadsAudit, ReadsEntry};
ghost use Rattle.vet_files.specs.Tables.{set_data, with_key};

use crate::field::Field;
use crate::keys::{
    CRITERIA, DELTA, END, IMPORTABLE, NOTES, RENEW, START, SUGGEST, USER_ID, VERSION, VIOLATION,
    WHO,
};
use crate::write::put::{put, put_some};
use crate::write::put_sets::put_texts;
use std::alloc::{AllocError, Global};
use toml::Table;
use vet_base::version::VetVersion;
use vet_entries::entry::Entry;
use vet_entries::kind::{Audit, Grant, Kind, Window};

/// The table of an entry.
pub(crate) fn entry_table(alloc: Global, entry: &Entry) -> Result<Table, AllocError>
    ensures table { IfOk result (λ t. table_view t ≡ entry_table entry.now) }
    ensures read { IfOk result (λ t. ReadsEntry entry.now) }
{
    match &entry.kind {
        Kind::Full(version, audit) => audit_table(alloc, entry, audit, VERSION, version),
        Kind::Delta(delta, audit) => audit_table(alloc, entry, audit, DELTA, delta),
        Kind::Violation(req, audit) => audit_table(alloc, entry, audit, VIOLATION, req),
        Kind::Wildcard(window, grant) => wildcard_table(alloc, entry, window, grant),
        Kind::Trusted(window) => trusted_table(alloc, entry, window),
        Kind::Exemption {
            version,
            suggest,
            last_day: _,
        } => exemption_table(alloc, entry, version, *suggest),
    }
}

/// A table with an entry's criteria, whose key comes before all others.
fn with_criteria(alloc: Global, entry: &Entry) -> Result<Table, AllocError>
    ensures put { IfOk result (λ t. table_view t
        ≡ with_key no_members (codes "criteria") (Some (set_data entry.now.criteria))) }
    ensures read { IfOk result (λ t. IsReadAs names (set_data entry.now.criteria) entry.now.criteria) }
    ensures named { is_package_name entry.now.«package» ≡ true }
{
    // Called for its clause that this is a name, since nothing else would be read back.
    let _ = entry.package.as_str();
    let mut table = Table::new(alloc);
    put(alloc, &mut table, CRITERIA, &entry.criteria)?;
    Ok(table)
}

/// The table of an audit, which has its subject at the key of its kind.
fn audit_table<V: Field>(
    alloc: Global,
    entry: &Entry,
    audit: &Audit,
    key: &str,
    subject: &V,
) -> Result<Table, AllocError>
    ensures table { IfOk result (λ t. table_view t
        ≡ audit_table entry.now audit.now key.now (V.written subject.now)) }
    ensures read { IfOk result (λ t.
        ReadsAudit entry.now audit.now × IsReadAs V.told (V.written subject.now) subject.now) }
{
    let mut table = with_criteria(alloc, entry)?;
    put_some(alloc, &mut table, IMPORTABLE, audit.importable.as_ref())?;
    put_some(alloc, &mut table, NOTES, entry.notes.as_ref())?;
    put_texts(alloc, &mut table, WHO, &audit.who)?;
    put(alloc, &mut table, key, subject)?;
    Ok(table)
}

/// The table of a wildcard audit.
fn wildcard_table(
    alloc: Global,
    entry: &Entry,
    window: &Window,
    grant: &Grant,
) -> Result<Table, AllocError>
    ensures table { IfOk result (λ t. table_view t
        ≡ entry_table (of_kind entry.now (Kind.Wildcard window.now grant.now))) }
    ensures read { IfOk result (λ t. ReadsEntry (of_kind entry.now (Kind.Wildcard window.now grant.now))) }
{
    let mut table = with_criteria(alloc, entry)?;
    put(alloc, &mut table, END, &window.last)?;
    put_some(alloc, &mut table, NOTES, entry.notes.as_ref())?;
    put_some(alloc, &mut table, RENEW, grant.renew.as_ref())?;
    put(alloc, &mut table, START, &window.first)?;
    put(alloc, &mut table, USER_ID, &window.user)?;
    put_texts(alloc, &mut table, WHO, &grant.who)?;
    Ok(table)
}

/// The table of a trusted publisher.
fn trusted_table(alloc: Global, entry: &Entry, window: &Window) -> Result<Table, AllocError>
    ensures table { IfOk result (λ t. table_view t ≡ entry_table (of_kind entry.now (Kind.Trusted window.now))) }
    ensures read { IfOk result (λ t. ReadsEntry (of_kind entry.now (Kind.Trusted window.now))) }
{
    let mut table = with_criteria(alloc, entry)?;
    put(alloc, &mut table, END, &window.last)?;
    put_some(alloc, &mut table, NOTES, entry.notes.as_ref())?;
    put(alloc, &mut table, START, &window.first)?;
    put(alloc, &mut table, USER_ID, &window.user)?;
    Ok(table)
}

/// The table of an exemption without a last day. No file has a key for a last day.
fn exemption_table(
    alloc: Global,
    entry: &Entry,
    version: &VetVersion,
    suggest: Option<bool>,
) -> Result<Table, AllocError>
    ensures table { IfOk result (λ t. table_view t
        ≡ entry_table (of_kind entry.now (Kind.Exemption version.now suggest None))) }
    ensures read { IfOk result (λ t. ReadsEntry (of_kind entry.now (Kind.Exemption version.now suggest None))) }
{
    let mut table = with_criteria(alloc, entry)?;
    put_some(alloc, &mut table, NOTES, entry.notes.as_ref())?;
    put_some(alloc, &mut table, SUGGEST, suggest.as_ref())?;
    put(alloc, &mut table, VERSION, version)?;
    Ok(table)
}
