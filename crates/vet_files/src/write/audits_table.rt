//! The table of an audits file.
ghost use Rattle.std.specs.Prelude.{◌≡◌, IfOk, OnOk};
ghost use Rattle.toml.specs.Data.{no_members, table};
ghost use Rattle.toml.specs.View.{table_view};
ghost use Rattle.vet_files.specs.AuditsTable.{audits_file_table, criterion_table};
ghost use Rattle.vet_files.specs.ReadAgain.{ReadsAudits, ReadsCriterion};

use crate::keys::{AUDITS, CRITERIA, TRUSTED, WILDCARD_AUDITS};
use crate::write::criteria_tables::criterion_table;
use crate::write::lists_by_package::package_lists;
use crate::write::members::{Member, WriteMember, write_members};
use crate::write::put::{put_unless_empty, put_value};
use crate::write::sections::Listing;
use std::alloc::{AllocError, Global};
use toml::{Table, Value};
use vet_base::criterion::Criterion;
use vet_base::package_names::PackageNames;
use vet_entries::entry::Entry;

/// Writes the criteria of a file, each at its name.
#[derive(Drop)]
struct WriteCriteria {}

impl WriteMember for WriteCriteria {
    type Item = Criterion;

    ghost name = { λ c. c.name };

    ghost written = { λ w c. table (criterion_table c) };

    ghost Reads = { λ w c. ReadsCriterion c };

    fn write(&self, alloc: Global, criterion: &Criterion) -> Result<Member, AllocError> {
        Ok(Member {
            name: String::from_str(alloc, criterion.name.as_str())?,
            value: Value::Table(criterion_table(alloc, criterion)?),
        })
    }
}

/// The table of an audits file of these criteria and entries, less the entries of excluded packages.
pub(crate) fn audits_file_table(
    alloc: Global,
    exclude: &PackageNames,
    criteria: &[Criterion],
    entries: &[Entry],
) -> Result<Table, AllocError>
    ensures table { IfOk result (λ t. table_view t ≡ audits_file_table exclude.now criteria.now entries.now) }
    ensures read { IfOk result (λ t. ReadsAudits exclude.now criteria.now entries.now) }
{
    let mut file = Table::new(alloc);
    fill_audits_file(alloc, &mut file, exclude, criteria, entries)?;
    Ok(file)
}

/// Puts these criteria and entries into the table of an audits file, less the entries of excluded packages.
fn fill_audits_file(
    alloc: Global,
    file: &mut Table,
    exclude: &PackageNames,
    criteria: &[Criterion],
    entries: &[Entry],
) -> Result<(), AllocError>
    requires { table_view file.old ≡ no_members }
    ensures table { OnOk result (table_view file.new ≡ audits_file_table exclude.now criteria.now entries.now) }
    ensures read { OnOk result (ReadsAudits exclude.now criteria.now entries.now) }
{
    let audits = package_lists(alloc, Listing::Audits, exclude, entries)?;
    put_value(alloc, file, AUDITS, Value::Table(audits))?;
    let criteria = write_members(alloc, &WriteCriteria {}, criteria)?;
    put_unless_empty(alloc, file, CRITERIA, criteria)?;
    let trusted = package_lists(alloc, Listing::Trusted, exclude, entries)?;
    put_unless_empty(alloc, file, TRUSTED, trusted)?;
    let wildcards = package_lists(alloc, Listing::WildcardAudits, exclude, entries)?;
    put_unless_empty(alloc, file, WILDCARD_AUDITS, wildcards)?;
    Ok(())
}
