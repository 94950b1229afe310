//! The publisher records of an imports file.
ghost use Rattle.std.specs.Prelude.{◌≡◌, IfOk, IfErr};
ghost use Rattle.toml.specs.View.{table_view};
ghost use Rattle.vet_base.specs.Gives.{Gives};
ghost use Rattle.vet_files.specs.Imports.{next_publishers, published, publisher_of, publisher_told, publishers_told};
ghost use Rattle.vet_files.specs.Lists.{each_once, listed};
ghost use Rattle.vet_files.specs.Publishers.{in_order};

use crate::field::{fault, optional, required};
use crate::found::Found;
use crate::keys::{
    PUBLISHER, TOP, TableKind, USER_ID, USER_LOGIN, USER_NAME, VERSION, WHEN, unknown_keys,
};
use crate::listed::Listed;
use crate::notices::Notices;
use crate::read::document::table_at;
use crate::read::entries::{has, skipped};
use crate::read::package_tables::{PackageTable, ReadTable, tables_of_package};
use crate::read::walk::{ReadMember, each_member};
use std::alloc::Global;
use toml::{Table, Value};
use vet_base::name::PackageName;
use vet_base::refusal::Refusal;
use vet_entries::publisher::Publisher;
use vet_entries::publisher_records::PackagePublishers;
use vet_entries::publishers::Publishers;

/// The publisher records of an imports file: those of each package that has some, in the order of the
/// packages' names.
pub(crate) fn read_publishers(
    alloc: Global,
    file: &Table,
) -> Result<Found<Listed<PackagePublishers>>, Refusal>
    ensures { Gives (λ f. f) (publishers_told (table_view file.now)) result }
{
    let Some(table) = table_at(alloc, TOP, file, PUBLISHER)? else {
        return Ok(Found::nothing(alloc));
    };
    each_member(
        alloc,
        &ReadPackagePublishers {},
        Found::nothing(alloc),
        table,
    )
}

/// Reads the records of a file's packages, one package after the other.
#[derive(Drop)]
struct ReadPackagePublishers {}

impl ReadMember for ReadPackagePublishers {
    type Found = Found<Listed<PackagePublishers>>;

    ghost told = { λ r. next_publishers };

    fn read(
        &self,
        alloc: Global,
        found: Found<Listed<PackagePublishers>>,
        key: &str,
        value: &Value,
    ) -> Result<Found<Listed<PackagePublishers>>, Refusal> {
        let more = tables_of_package(alloc, &ReadPublisher {}, PUBLISHER, key, value)?;
        let Some(package) = PackageName::read(alloc, key)? else {
            return Err(fault(alloc, PUBLISHER, key));
        };
        let more = publish(alloc, package, more)?;
        Ok(found.with(more)?)
    }
}

/// The records of a package in order, each once, or `None` for a package without any.
fn publish(
    alloc: Global,
    package: PackageName,
    found: Found<Listed<Publisher>>,
) -> Result<Found<Option<PackagePublishers>>, Refusal>
    ensures value { IfOk result (λ f. listed f ≡ published «package» (each_once in_order found)) }
    ensures memory { IfErr result (λ e. e ≡ Refusal.NoMemory) }
{
    let read = found.content.len();
    let publishers = sorted(alloc, found.content.into_vec())?;
    let doubles = Notices::doubles(read - publishers.len());
    let notices = found.notices.and(doubles)?;
    let content = if publishers.is_empty() {
        None
    } else {
        Some(PackagePublishers {
            package,
            publishers,
        })
    };
    Ok(Found { content, notices })
}

/// Some records in order, each once.
fn sorted(alloc: Global, records: Vec<Publisher>) -> Result<Publishers, Refusal>
    ensures value { IfOk result (λ p. p ≡ in_order records.items) }
    ensures memory { IfErr result (λ e. e ≡ Refusal.NoMemory) }
{
    Publishers::of(alloc, records)
}

/// Reads the publisher records of a package. A record that names no user is skipped.
#[derive(Drop)]
struct ReadPublisher {}

impl ReadTable for ReadPublisher {
    type Item = Publisher;

    ghost told = { λ r. publisher_told };

    fn read(
        &self,
        alloc: Global,
        at: &PackageTable<'_>,
    ) -> Result<Found<Option<Publisher>>, Refusal> {
        if !has(at.table, USER_ID) {
            return Ok(skipped());
        }
        read_publisher(alloc, at.path, at.table)
    }
}

/// The publisher record of a table.
fn read_publisher(
    alloc: Global,
    path: &str,
    table: &Table,
) -> Result<Found<Option<Publisher>>, Refusal>
    ensures { Gives (λ f. f) (publisher_of path.now (table_view table.now)) result }
{
    let notices = unknown_keys(TableKind::Publisher, table)?;
    let version = required(alloc, path, table, VERSION)?;
    let day = required(alloc, path, table, WHEN)?;
    let user = required(alloc, path, table, USER_ID)?;
    let login = optional(alloc, path, table, USER_LOGIN)?;
    let name = optional(alloc, path, table, USER_NAME)?;
    Ok(Found {
        notices,
        content: Some(Publisher {
            version,
            user,
            day,
            login,
            name,
        }),
    })
}
