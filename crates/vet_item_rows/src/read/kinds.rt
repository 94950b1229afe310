//! Reading what entries say of their packages from their rows. A last day is in another table (`days`).
ghost use Rattle.std.specs.Prelude.{◌≡◌, ℕ, Bool, None, Ok, Option, pos};
ghost use Rattle.vet_base.specs.Day.{day_number};
ghost use Rattle.vet_base.specs.Version.{VersionValue};
ghost use Rattle.vet_base.specs.Words.{Text};
ghost use Rattle.vet_base.specs.declared.delta.Delta.{Delta};
ghost use Rattle.vet_entries.specs.Kind.{last_day_of};
ghost use Rattle.vet_entries.specs.declared.facts.HeldEntry.{HeldEntry};
ghost use Rattle.vet_entries.specs.declared.kind.Audit.{Audit};
ghost use Rattle.vet_entries.specs.declared.kind.Grant.{Grant};
ghost use Rattle.vet_entries.specs.declared.kind.Kind.{Kind as KindValue};
ghost use Rattle.vet_entries.specs.declared.kind.Kind.TheVariants as said;
ghost use Rattle.vet_entries.specs.declared.kind.Window.{Window};
ghost use Rattle.vet_item_rows.specs.Columns.{flag, packed_names};
ghost use Rattle.vet_item_rows.specs.EntryRows.{entry_row, unused, with_kind};
ghost use Rattle.vet_item_rows.specs.ReadBack.{IsWritten, Reads};
ghost use Rattle.vet_item_rows.specs.ReadFacts.{IsRowEntry, IsSaidIn};
ghost use Rattle.vet_item_rows.specs.Values.{AreTexts, IsWindow};

use crate::read::cells::{blob_at, int_at, text_at};
use crate::read::columns::{day, flag, number, requirement, texts, user, version};
use crate::read::read_error::ReadError;
use std::alloc::Global;
use std::marker::Model;
use vet_base::delta::Delta;
use vet_entries::kind::{Audit, Grant, Kind, Window};
use vet_tables::sequence::Row;

/// What the row of an entry says of its package, column by column.
#[derive(Drop)]
struct KindCells<'a> {
    kind: i64,
    a: &'a str,
    b: &'a str,
    user: i64,
    day1: i64,
    day2: i64,
    who: &'a [u8],
    suggest: i64,
    renew: i64,
    importable: i64,
}

impl<'a> Model for KindCells<'a> {
    ghost use Rattle.vet_item_rows.specs.KindColumns.{KindColumns};

    ghost Value = { KindColumns };

    ghost view = { λ s. record {
      kind = s.kind;
      a = s.a.now;
      b = s.b.now;
      user = s.user;
      day1 = s.day1;
      day2 = s.day2;
      who = s.who.now;
      suggest = s.suggest;
      renew = s.renew;
      importable = s.importable;
    } };
}

/// What the row of an entry says of its package.
pub(crate) fn kind(alloc: Global, row: &Row) -> Result<Kind, ReadError>
    ensures { (held : HeldEntry) → IsWritten IsRowEntry entry_row row.now held → Reads result held.entry.kind }
{
    kind_of(alloc, &kind_cells(row)?)
}

// Its columns.
fn kind_cells(row: &Row) -> Result<KindCells<'_>, ReadError>
    ensures { (held : HeldEntry) → row.now ≡ entry_row held → result ≡ Ok (with_kind held.entry.kind unused) }
{
    Ok(KindCells {
        kind: int_at(row, 3)?,
        a: text_at(row, 4)?,
        b: text_at(row, 5)?,
        user: int_at(row, 6)?,
        day1: int_at(row, 7)?,
        day2: int_at(row, 8)?,
        who: blob_at(row, 10)?,
        suggest: int_at(row, 12)?,
        renew: int_at(row, 13)?,
        importable: int_at(row, 14)?,
    })
}

// What columns say of a package. They do not say whether an exemption has a last day.
fn kind_of(alloc: Global, cells: &KindCells<'_>) -> Result<Kind, ReadError>
    ensures { (k : KindValue) → last_day_of k ≡ None → IsSaidIn cells.now k → Reads result k }
{
    let number = kind_number(cells)?;
    if number == 0 {
        return full(alloc, cells);
    }
    if number == 1 {
        return delta(alloc, cells);
    }
    if number == 2 {
        return violation(alloc, cells);
    }
    if number == 3 {
        return wildcard(alloc, cells);
    }
    if number == 4 {
        return Ok(Kind::Trusted(window(cells)?));
    }
    if number == 5 {
        return exemption(alloc, cells);
    }
    Err(ReadError::NotARegister)
}

// The number of the kind. Takes no memory.
fn kind_number(cells: &KindCells<'_>) -> Result<u64, ReadError>
    ensures { (n : ℕ) → cells.now.kind ≡ pos n → result ≡ Ok n }
{
    number(cells.kind)
}

// That a version was reviewed in full.
fn full(alloc: Global, cells: &KindCells<'_>) -> Result<Kind, ReadError>
    ensures { (v : VersionValue) (a : Audit) → IsSaidIn cells.now (said.Full v a) → Reads result (said.Full v a) }
{
    let version = version(alloc, cells.a)?;
    Ok(Kind::Full(version, audit(alloc, cells)?))
}

// That what changed between two versions was reviewed.
fn delta(alloc: Global, cells: &KindCells<'_>) -> Result<Kind, ReadError>
    ensures { (d : Delta) (a : Audit) → IsSaidIn cells.now (said.Delta d a) → Reads result (said.Delta d a) }
{
    let from = version(alloc, cells.a)?;
    let to = version(alloc, cells.b)?;
    Ok(Kind::Delta(Delta { from, to }, audit(alloc, cells)?))
}

// That versions do not meet the criteria.
fn violation(alloc: Global, cells: &KindCells<'_>) -> Result<Kind, ReadError>
    ensures { (r : Text) (a : Audit) → IsSaidIn cells.now (said.Violation r a) → Reads result (said.Violation r a) }
{
    let requirement = requirement(alloc, cells.a)?;
    Ok(Kind::Violation(requirement, audit(alloc, cells)?))
}

// That somebody vouches for what a user publishes.
fn wildcard(alloc: Global, cells: &KindCells<'_>) -> Result<Kind, ReadError>
    ensures { (w : Window) (g : Grant) → IsSaidIn cells.now (said.Wildcard w g) → Reads result (said.Wildcard w g) }
{
    let window = window(cells)?;
    Ok(Kind::Wildcard(window, grant(alloc, cells)?))
}

// That a version is exempted, without a last day.
fn exemption(alloc: Global, cells: &KindCells<'_>) -> Result<Kind, ReadError>
    ensures { (v : VersionValue) (s : Option Bool) → IsSaidIn cells.now (said.Exemption v s None)
        → Reads result (said.Exemption v s None) }
{
    let suggest = flag(cells.suggest)?;
    Ok(Kind::Exemption {
        version: version(alloc, cells.a)?,
        suggest,
        last_day: None,
    })
}

// Who made an audit, and whether others may import it.
fn audit(alloc: Global, cells: &KindCells<'_>) -> Result<Audit, ReadError>
    ensures { (a : Audit) → AreTexts a.who → cells.now.who ≡ packed_names a.who
        → cells.now.importable ≡ flag a.importable → Reads result a }
{
    Ok(Audit {
        who: texts(alloc, cells.who)?,
        importable: flag(cells.importable)?,
    })
}

// Who vouches, and whether that is to be renewed.
fn grant(alloc: Global, cells: &KindCells<'_>) -> Result<Grant, ReadError>
    ensures { (g : Grant) → AreTexts g.who → cells.now.who ≡ packed_names g.who → cells.now.renew ≡ flag g.renew
        → Reads result g }
{
    Ok(Grant {
        who: texts(alloc, cells.who)?,
        renew: flag(cells.renew)?,
    })
}

// A user, from a first day to a last.
fn window(cells: &KindCells<'_>) -> Result<Window, ReadError>
    ensures { (w : Window) → IsWindow w → cells.now.user ≡ pos w.user → cells.now.day1 ≡ day_number w.first
        → cells.now.day2 ≡ day_number w.last → result ≡ Ok w }
{
    Ok(Window {
        user: user(cells.user)?,
        first: day(cells.day1)?,
        last: day(cells.day2)?,
    })
}
