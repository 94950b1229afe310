//! The entries of the table `exemptions`.
ghost use Rattle.vet_base.specs.Gives.{Gives};
ghost use Rattle.vet_files.specs.Config.{exemption_told};
ghost use Rattle.vet_files.specs.Lists.{table_told};

use crate::field::{optional, required};
use crate::found::Found;
use crate::keys::{CRITERIA, NOTES, SUGGEST, TableKind, VERSION};
use crate::read::entries::found_entry;
use crate::read::package_tables::PackageTable;
use std::alloc::Global;
use vet_base::refusal::Refusal;
use vet_entries::entry::Entry;
use vet_entries::kind::Kind;

/// The exemption of a table, which has no last day.
pub(crate) fn read_exemption(
    alloc: Global,
    at: &PackageTable<'_>,
) -> Result<Found<Option<Entry>>, Refusal>
    ensures { Gives (λ f. f) (table_told exemption_told at.now) result }
{
    let version = required(alloc, at.path, at.table, VERSION)?;
    let criteria = required(alloc, at.path, at.table, CRITERIA)?;
    let suggest = optional(alloc, at.path, at.table, SUGGEST)?;
    let notes = optional(alloc, at.path, at.table, NOTES)?;
    let kind = Kind::Exemption {
        version,
        suggest,
        last_day: None,
    };
    found_entry(at, TableKind::Exemption, kind, criteria, notes)
}
