//! The entries of the tables `wildcard-audits` and `trusted`.
ghost use Rattle.std.specs.Prelude.{◌≡◌};
ghost use Rattle.toml.specs.View.{table_view};
ghost use Rattle.vet_base.specs.Gives.{Gives};
ghost use Rattle.vet_files.specs.Audits.{is_trusted, trusted_told, wildcard_of_window, wildcard_told, window_told};
ghost use Rattle.vet_files.specs.Lists.{table_told};

use crate::field::{optional, required};
use crate::found::Found;
use crate::keys::{CRITERIA, END, NOTES, RENEW, START, TableKind, USER_ID, WHO};
use crate::read::entries::{found_entry, has, skipped};
use crate::read::package_tables::PackageTable;
use crate::read::whose::Whose;
use std::alloc::Global;
use toml::Table;
use vet_base::names::Names;
use vet_base::refusal::Refusal;
use vet_base::texts::Texts;
use vet_entries::entry::Entry;
use vet_entries::kind::{Grant, Kind, Window};

/// Whether a trusted publisher is read and not skipped.
fn is_trusted(whose: Whose, table: &Table) -> bool
    ensures { result ≡ is_trusted whose (table_view table.now) }
{
    match whose {
        Whose::Ours => has(table, USER_ID),
        Whose::Peers => false,
    }
}

/// The window of a table.
fn read_window(alloc: Global, path: &str, table: &Table) -> Result<Window, Refusal>
    ensures { Gives (λ w. w) (window_told path.now (table_view table.now)) result }
{
    let user = required(alloc, path, table, USER_ID)?;
    let first = required(alloc, path, table, START)?;
    let last = required(alloc, path, table, END)?;
    Ok(Window { user, first, last })
}

/// The wildcard audit of a table. It is skipped if it names no user.
pub(crate) fn read_wildcard(
    alloc: Global,
    at: &PackageTable<'_>,
) -> Result<Found<Option<Entry>>, Refusal>
    ensures { Gives (λ f. f) (table_told wildcard_told at.now) result }
{
    if !has(at.table, USER_ID) {
        return Ok(skipped());
    }
    let criteria = required(alloc, at.path, at.table, CRITERIA)?;
    let window = read_window(alloc, at.path, at.table)?;
    read_wildcard_of(alloc, at, criteria, window)
}

/// The wildcard audit of a table whose criteria and window were read.
fn read_wildcard_of(
    alloc: Global,
    at: &PackageTable<'_>,
    criteria: Names,
    window: Window,
) -> Result<Found<Option<Entry>>, Refusal>
    ensures { Gives (λ f. f) (wildcard_of_window at.now.«package».now at.now.path.now (table_view at.now.table.now)
        criteria window) result }
{
    let who: Option<Texts> = optional(alloc, at.path, at.table, WHO)?;
    let renew = optional(alloc, at.path, at.table, RENEW)?;
    let notes = optional(alloc, at.path, at.table, NOTES)?;
    let grant = Grant {
        who: who.unwrap_or(Texts::new(alloc)),
        renew,
    };
    let kind = Kind::Wildcard(window, grant);
    found_entry(at, TableKind::Wildcard, kind, criteria, notes)
}

/// The trusted publisher of a table. It is skipped if it names no user or is in a peer's file.
pub(crate) fn read_trusted(
    alloc: Global,
    whose: Whose,
    at: &PackageTable<'_>,
) -> Result<Found<Option<Entry>>, Refusal>
    ensures { Gives (λ f. f) (table_told (trusted_told whose) at.now) result }
{
    if !is_trusted(whose, at.table) {
        return Ok(skipped());
    }
    let criteria = required(alloc, at.path, at.table, CRITERIA)?;
    let window = read_window(alloc, at.path, at.table)?;
    let notes = optional(alloc, at.path, at.table, NOTES)?;
    found_entry(
        at,
        TableKind::Trusted,
        Kind::Trusted(window),
        criteria,
        notes,
    )
}
