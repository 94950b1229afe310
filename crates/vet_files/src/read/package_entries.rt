//! The entries of a file's table of lists by package, each once.
ghost use Rattle.std.specs.Prelude.{◌≡◌, IfOk};
ghost use Rattle.toml.specs.View.{table_view, view};
ghost use Rattle.vet_base.specs.Gives.{Gives};
ghost use Rattle.vet_entries.specs.Distinct.{distinct};
ghost use Rattle.vet_files.specs.Audits.{entries_of, next_package};
ghost use Rattle.vet_files.specs.Lists.{RisesAt, each_once};
ghost use Rattle.vet_files.specs.ReadEntry.{entry_told};

use crate::found::Found;
use crate::listed::Listed;
use crate::notices::Notices;
use crate::read::document::{joined, table_at};
use crate::read::entries::read_audit;
use crate::read::exemptions::read_exemption;
use crate::read::package_tables::{PackageTable, ReadTable, tables_of_package};
use crate::read::walk::{ReadMember, each_member};
use crate::read::whose::Whose;
use crate::read::windows::{read_trusted, read_wildcard};
use std::alloc::{AllocError, Global};
use toml::{Table, Value};
use vet_base::refusal::Refusal;
use vet_entries::distinct::distinct;
use vet_entries::entry::Entry;

/// Reads the entries of one of a file's tables.
#[derive(Clone, Copy)]
pub(crate) enum ReadEntry {
    Audits(Whose),
    Wildcards,
    Trusted(Whose),
    Exemptions,
}

impl ReadTable for ReadEntry {
    type Item = Entry;

    ghost told = { entry_told };

    fn read(&self, alloc: Global, at: &PackageTable<'_>) -> Result<Found<Option<Entry>>, Refusal> {
        match *self {
            ReadEntry::Audits(whose) => read_audit(alloc, whose, at),
            ReadEntry::Wildcards => read_wildcard(alloc, at),
            ReadEntry::Trusted(whose) => read_trusted(alloc, whose, at),
            ReadEntry::Exemptions => read_exemption(alloc, at),
        }
    }
}

/// The entries of a file's table of lists by package.
pub(crate) fn read_entries(
    alloc: Global,
    reader: ReadEntry,
    path: &str,
    prefix: &str,
    key: &str,
    file: &Table,
) -> Result<Found<Listed<Entry>>, Refusal>
    ensures told { Gives (λ f. f)
        (entries_of (entry_told reader) path.now prefix.now key.now (table_view file.now)) result }
    ensures rises { IfOk result (λ _. RisesAt path.now key.now (table_view file.now)) }
{
    let Some(table) = table_at(alloc, path, file, key)? else {
        return Ok(Found::nothing(alloc));
    };
    let path = joined(alloc, prefix, key)?;
    let packages = ReadPackages {
        reader,
        path: path.as_str(),
    };
    each_member(alloc, &packages, Found::nothing(alloc), table)
}

/// Reads the entries of a table's packages, one after the other.
#[derive(Drop)]
struct ReadPackages<'a> {
    reader: ReadEntry,
    path: &'a str,
}

impl ReadMember for ReadPackages<'_> {
    type Found = Found<Listed<Entry>>;

    ghost told = { λ r. next_package (entry_told r.reader) r.path.now };

    fn read(
        &self,
        alloc: Global,
        found: Found<Listed<Entry>>,
        key: &str,
        value: &Value,
    ) -> Result<Found<Listed<Entry>>, Refusal> {
        let more = tables_of_package(alloc, &self.reader, self.path, key, value)?;
        let more = each_once(alloc, more)?;
        Ok(found.followed_by(more)?)
    }
}

/// Each entry once; those that equal an earlier one are counted.
fn each_once(alloc: Global, found: Found<Listed<Entry>>) -> Result<Found<Listed<Entry>>, AllocError>
    ensures { IfOk result (λ f. f ≡ each_once distinct found) }
{
    let read = found.content.len();
    let content = Listed::of(distinct(alloc, found.content.into_vec())?);
    let doubles = read - content.len();
    Ok(Found {
        notices: found.notices.and(Notices::doubles(doubles))?,
        content,
    })
}
