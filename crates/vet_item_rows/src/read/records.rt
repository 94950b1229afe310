//! Publisher records by their packages.
ghost use Rattle.std.specs.Prelude.{◌≡◌, ◌↔◌, ◌≤◌, IfOk, IsTrue, List, MatchResult, map};
ghost use Rattle.std.specs.List.{All};
ghost use Rattle.vet_base.specs.declared.limits.TheConstants.{MOST_PUBLISHERS};
ghost use Rattle.vet_entries.specs.PublisherRecords.{HasAny, IsByName, records_total};
ghost use Rattle.vet_entries.specs.declared.publisher_records.PackagePublishers.{PackagePublishers as PackageValue};
ghost use Rattle.vet_item_rows.specs.ReadBack.{EachStandsFor, IsReadBack};
ghost use Rattle.vet_item_rows.specs.ReadRecords.{AreRecordsOf, IsGroupOfPackage};

use crate::read::gathered::{Group, WithKey, gather};
use crate::read::read_error::ReadError;
use std::alloc::{AllocError, Global};
use vet_base::keyed::Keyed;
use vet_base::limits::MOST_PUBLISHERS;
use vet_base::name::PackageName;
use vet_entries::publisher::Publisher;
use vet_entries::publisher_records::PackagePublishers;
use vet_entries::publishers::Publishers;

/// These records by their packages. They may be in any order, and may repeat.
pub(crate) fn records_of(
    alloc: Global,
    records: Vec<WithKey<PackageName, Publisher>>,
) -> Result<Vec<PackagePublishers>, ReadError>
    ensures by_name { IfOk result (λ packages. IsByName packages.items) }
    ensures few { IfOk result (λ packages. records_total packages.items ≤ MOST_PUBLISHERS) }
    ensures back { (packages : List PackageValue) → AreRecordsOf records.items packages
        → MatchResult result (λ held. held.items ≡ packages) (λ e. e ≡ ReadError.NoMemory) }
{
    let names = names_of(alloc, records.as_slice())?;
    let names = Keyed::of(alloc, names)?.into_items();
    let groups = gather(alloc, names, records)?;
    let packages = Keyed::of(alloc, packages_of(alloc, groups)?)?.into_items();
    if !are_held(packages.as_slice()) {
        return Err(ReadError::NotARegister);
    }
    Ok(packages)
}

// The packages of some records.
fn names_of(
    alloc: Global,
    records: &[WithKey<PackageName, Publisher>],
) -> Result<Vec<PackageName>, AllocError>
    ensures { IfOk result (λ names. names.items ≡ map (λ filed. filed.key) records.now) }
{
    let mut names = Vec::new(alloc);
    'records: for filed in records {
        names.push(filed.key.clone()?)?;
    }
    Ok(names)
}

// The packages with their records.
fn packages_of(
    alloc: Global,
    groups: Vec<Group<PackageName, Publisher>>,
) -> Result<Vec<PackagePublishers>, ReadError>
    ensures { (packages : List PackageValue) → EachStandsFor IsGroupOfPackage groups.items packages
        → MatchResult result (λ held. held.items ≡ packages) (λ e. e ≡ ReadError.NoMemory) }
{
    let mut packages = Vec::new(alloc);
    'groups: for group in groups {
        packages.push(package_of(alloc, group)?)?;
    }
    Ok(packages)
}

// A package with its records.
fn package_of(
    alloc: Global,
    group: Group<PackageName, Publisher>,
) -> Result<PackagePublishers, ReadError>
    ensures { IsReadBack IsGroupOfPackage group result }
{
    let (package, records) = group.into_parts();
    Ok(PackagePublishers {
        package,
        publishers: Publishers::of(alloc, records)?,
    })
}

// Whether each package has records, and there are not too many.
fn are_held(packages: &[PackagePublishers]) -> bool
    ensures { IsTrue result ↔ (All HasAny packages.now × (records_total packages.now ≤ MOST_PUBLISHERS)) }
{
    let mut total = 0;
    'packages: for held in packages {
        let count = held.publishers.len();
        if count == 0 || count > MOST_PUBLISHERS - total {
            return false;
        }
        total += count;
    }
    true
}
