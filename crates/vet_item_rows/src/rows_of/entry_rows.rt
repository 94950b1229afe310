//! The rows of entries and of publisher records.
ghost use Rattle.std.specs.Prelude.{◌≡◌, ◌++◌, IfOk, OnOk};
ghost use Rattle.std.specs.List.{flat_map};
ghost use Rattle.vet_item_rows.specs.EntryRows.{package_rows, publisher_row, row_saying, unused};
ghost use Rattle.vet_item_rows.specs.EntryRows.{with_audit, with_grant, with_kind, with_window};
ghost use Rattle.vet_item_rows.specs.Numbers.{EntryFits};

use crate::rows_of::columns::{
    flag, names_column, no_items, source_column, text_or_none, texts_column, version_column,
};
use std::alloc::{AllocError, Global};
use std::marker::Model;
use vet_base::name::PackageName;
use vet_entries::facts::HeldEntry;
use vet_entries::kind::{Audit, Grant, Kind, Window};
use vet_entries::publisher::Publisher;
use vet_entries::publisher_records::PackagePublishers;
use vet_tables::cell::Cell;
use vet_tables::column::{BlobColumn, TextColumn};
use vet_tables::sequence::{Row, Sequence};

/// What the kind of an entry says, column by column.
#[derive(Drop)]
pub struct KindColumns {
    kind: i64,
    a: TextColumn,
    b: TextColumn,
    user: i64,
    day1: i64,
    day2: i64,
    who: BlobColumn,
    suggest: i64,
    renew: i64,
    importable: i64,
}

impl Model for KindColumns {
    ghost use Rattle.vet_item_rows.specs.KindColumns.{KindColumns as KindColumnsValue};

    ghost Value = { KindColumnsValue };

    ghost view = { λ s. record {
      kind = s.kind;
      a = s.a;
      b = s.b;
      user = s.user;
      day1 = s.day1;
      day2 = s.day2;
      who = s.who;
      suggest = s.suggest;
      renew = s.renew;
      importable = s.importable;
    } };
}

/// The row of an entry whose kind says this. Asks that its number is below 2^63. Fails only if memory runs out.
pub fn row_saying(alloc: Global, held: &HeldEntry, said: KindColumns) -> Result<Row, AllocError>
    requires { EntryFits held.now }
    ensures { IfOk result (λ row. row ≡ row_saying held.now said) }
{
    let entry = &held.entry;
    let cells = vec![in alloc;
        Cell::Int(held.number as i64),
        Cell::Text(source_column(alloc, &entry.source)?),
        Cell::text(alloc, entry.package.as_str())?,
        Cell::Int(said.kind),
        Cell::Text(said.a),
        Cell::Text(said.b),
        Cell::Int(said.user),
        Cell::Int(said.day1),
        Cell::Int(said.day2),
        Cell::Blob(names_column(alloc, &entry.criteria)?),
        Cell::Blob(said.who),
        Cell::Blob(text_or_none(alloc, &entry.notes)?),
        Cell::Int(said.suggest),
        Cell::Int(said.renew),
        Cell::Int(said.importable),
    ]?;
    Ok(Sequence::of(cells))
}

/// What columns hold if the kind of an entry doesn't use them. Fails only if memory runs out.
pub fn unused(alloc: Global) -> Result<KindColumns, AllocError>
    ensures { IfOk result (λ said. said ≡ unused) }
{
    Ok(KindColumns {
        kind: 0,
        a: TextColumn::of(alloc, "")?,
        b: TextColumn::of(alloc, "")?,
        user: 0,
        day1: 0,
        day2: 0,
        who: no_items(alloc),
        suggest: -1,
        renew: -1,
        importable: -1,
    })
}

/// Sets the columns that this kind uses. There is none for a last day. Fails only if memory runs out.
pub fn set_kind(alloc: Global, said: &mut KindColumns, kind: &Kind) -> Result<(), AllocError>
    ensures { OnOk result (said.new ≡ with_kind kind.now said.old) }
{
    match kind {
        Kind::Full(version, audit) => {
            said.kind = 0;
            said.a = version_column(alloc, version)?;
            set_audit(alloc, said, audit)
        }
        Kind::Delta(delta, audit) => {
            said.kind = 1;
            said.a = version_column(alloc, &delta.from)?;
            said.b = version_column(alloc, &delta.to)?;
            set_audit(alloc, said, audit)
        }
        Kind::Violation(req, audit) => {
            said.kind = 2;
            said.a = TextColumn::of(alloc, req.as_str())?;
            set_audit(alloc, said, audit)
        }
        Kind::Wildcard(window, grant) => {
            said.kind = 3;
            set_window(said, *window);
            set_grant(alloc, said, grant)
        }
        Kind::Trusted(window) => {
            said.kind = 4;
            set_window(said, *window);
            Ok(())
        }
        Kind::Exemption {
            version,
            suggest,
            last_day: _,
        } => {
            said.kind = 5;
            said.a = version_column(alloc, version)?;
            said.suggest = flag(*suggest);
            Ok(())
        }
    }
}

// Sets who made an audit, and whether others may import it.
fn set_audit(alloc: Global, said: &mut KindColumns, audit: &Audit) -> Result<(), AllocError>
    ensures { OnOk result (said.new ≡ with_audit audit.now said.old) }
{
    said.who = texts_column(alloc, &audit.who)?;
    said.importable = flag(audit.importable);
    Ok(())
}

// Sets who grants, and whether that is to be renewed.
fn set_grant(alloc: Global, said: &mut KindColumns, grant: &Grant) -> Result<(), AllocError>
    ensures { OnOk result (said.new ≡ with_grant grant.now said.old) }
{
    said.who = texts_column(alloc, &grant.who)?;
    said.renew = flag(grant.renew);
    Ok(())
}

// Sets a user, and a first and a last day.
fn set_window(said: &mut KindColumns, window: Window)
    ensures { said.new ≡ with_window window said.old }
{
    said.user = window.user.number() as i64;
    said.day1 = i64::from(window.first.number());
    said.day2 = i64::from(window.last.number());
}

/// The row of a publisher record of a package. Fails only if memory runs out.
pub fn publisher_row(
    alloc: Global,
    package: &PackageName,
    publisher: &Publisher,
) -> Result<Row, AllocError>
    ensures { IfOk result (λ row. row ≡ publisher_row «package».now publisher.now) }
{
    let cells = vec![in alloc;
        Cell::text(alloc, package.as_str())?,
        Cell::Text(version_column(alloc, &publisher.version)?),
        Cell::Int(publisher.user.number() as i64),
        Cell::Int(i64::from(publisher.day.number())),
        Cell::Blob(text_or_none(alloc, &publisher.login)?),
        Cell::Blob(text_or_none(alloc, &publisher.name)?),
    ]?;
    Ok(Sequence::of(cells))
}

/// The rows of the publisher records of some packages. Fails only if memory runs out.
pub fn all_publishers(alloc: Global, packages: &[PackagePublishers]) -> Result<Vec<Row>, AllocError>
    ensures { IfOk result (λ rows. rows.items ≡ flat_map package_rows packages.now) }
{
    let mut rows = Vec::new(alloc);
    'packages: for held in packages {
        push_publishers(alloc, &mut rows, held)?;
    }
    Ok(rows)
}

/// Adds the rows of a package's publisher records after those of others. Fails only if memory runs out.
pub fn push_publishers(
    alloc: Global,
    rows: &mut Vec<Row>,
    held: &PackagePublishers,
) -> Result<(), AllocError>
    ensures { OnOk result (rows.new.items ≡ rows.old.items ++ package_rows held.now) }
{
    'records: for publisher in held.publishers.as_slice() {
        rows.push(publisher_row(alloc, &held.package, publisher)?)?;
    }
    Ok(())
}
