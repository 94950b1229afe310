//! The publisher records of all packages.
ghost use Rattle.std.specs.Prelude.{◌≡◌, ◌↔◌, ◌<◌, ◌≤◌, ◌+◌, ◌^◌, ◌⊎◌, [], IfOk, IfErr, IsTrue, OnOk, ℕ, List, length};
ghost use Rattle.std.specs.Prelude.{slice_index_or};
ghost use Rattle.vet_base.specs.Keyed.{edited, room_after};
ghost use Rattle.vet_entries.specs.PublisherRecords.{FitsPublishers, HasPackage, IsByName, records_of, records_total};
ghost use Rattle.vet_entries.specs.PublisherRecords.{with_records};
ghost use Rattle.vet_entries.specs.Publishers.{IsInOrder};
ghost use Rattle.vet_entries.specs.declared.publisher_records.PackagePublishers.{PackagePublishers};

use crate::publisher::Publisher;
use crate::publishers::Publishers;
use std::alloc::{AllocError, Global};
use std::marker::Model;
use vet_base::keyed::{ExactItem, HasKey, Keyed, KeyedEdit};
use vet_base::name::PackageName;
use vet_base::refusal::Refusal;

/// A package, and its publisher records.
pub struct PackagePublishers {
    pub package: PackageName,
    pub publishers: Publishers,
}

impl Drop for PackagePublishers {
    fn drop(self) {
        let PackagePublishers {
            package: _,
            publishers: _,
        } = self;
    }
}

impl Clone for PackagePublishers {
    ghost use Rattle.std.specs.Prelude.{◌≡◌};

    ghost is_clone = { λ a b. b ≡ a };

    fn clone(&self) -> Result<PackagePublishers, AllocError> {
        Ok(PackagePublishers {
            package: self.package.clone()?,
            publishers: self.publishers.clone()?,
        })
    }
}

impl PartialEq for PackagePublishers {
    ghost use Rattle.std.specs.Cmp.{decided, partial_equiv_from_equiv};
    ghost use Rattle.std.specs.Prelude.{IsTrue, ◌↔◌, ◌≡◌};
    ghost use Rattle.vet_entries.specs.PublisherRecords.{package_eq};
    ghost use Rattle.vet_entries.specs.PublisherRecordsLaws.{package_eq-Decides};

    ghost eq = { package_eq };

    ghost laws = { partial_equiv_from_equiv (decided package_eq package_eq-Decides) };

    fn eq(&self, other: &PackagePublishers) -> bool
        ensures value { result ≡ package_eq self.now other.now }
        ensures same { IsTrue result ↔ (self.now ≡ other.now) }
    {
        self.package == other.package && self.publishers == other.publishers
    }
}

impl Eq for PackagePublishers {
    ghost use Rattle.std.specs.Cmp.{decided};
    ghost use Rattle.vet_entries.specs.PublisherRecords.{package_eq};
    ghost use Rattle.vet_entries.specs.PublisherRecordsLaws.{package_eq-Decides};

    ghost laws = { decided package_eq package_eq-Decides };
}

impl HasKey for PackagePublishers {
    ghost use Rattle.vet_entries.specs.PublisherRecords.{package_of};

    type Key = PackageName;

    ghost key_of = { package_of };

    fn key(&self) -> &PackageName {
        &self.package
    }
}

impl ExactItem for PackagePublishers {
    ghost use Rattle.vet_entries.specs.PublisherRecordsLaws.{package_eq-Decides};

    ghost only_copies = { λ a b h. h };

    ghost only_itself = { package_eq-Decides };
}

/// The packages that have publisher records, in the order of their names, with these records.
pub struct PublisherRecords {
    packages: Keyed<PackagePublishers>,
    total: usize,
}

impl Drop for PublisherRecords {
    fn drop(self) {
        let PublisherRecords {
            packages: _,
            total: _,
        } = self;
    }
}

impl Model for PublisherRecords {
    ghost use Rattle.std.specs.List.{All};
    ghost use Rattle.std.specs.Prelude.{◌≡◌};
    ghost use Rattle.vet_base.specs.Keyed.{KeyedRoom};
    ghost use Rattle.vet_base.specs.Encodings.{keyed_code};
    ghost use Rattle.vet_entries.specs.PublisherRecords.{HasAny, records_total};
    ghost use Rattle.vet_entries.specs.contracts.publisher_records.PackagePublishers as held;
    ghost use Rattle.vet_entries.specs.declared.publisher_records.PackagePublishers.{PackagePublishers};

    ghost Value = { KeyedRoom PackagePublishers };

    ghost coded = { keyed_code held.the_row.coded };

    ghost view = { λ r. r.packages };

    ghost invariant = { λ r. All HasAny r.packages.items × (r.total ≡ records_total r.packages.items) };
}

impl PublisherRecords {
    /// No records. Takes no memory.
    pub fn new(alloc: Global) -> PublisherRecords
        ensures { result.items ≡ [] }
    {
        PublisherRecords {
            packages: Keyed::new(alloc),
            total: 0,
        }
    }

    /// The records of these packages, which are in the order of their names. Asks that each package has records, and
    /// that all records together are fewer than 2^64. Takes a time of n log n.
    pub fn of(
        alloc: Global,
        packages: Vec<PackagePublishers>,
    ) -> Result<PublisherRecords, AllocError>
        requires by_name { IsByName packages.items }
        requires counted { records_total packages.items < 2 ^ 64 }
        ensures { IfOk result (λ r. r.items ≡ packages.items) }
    {
        let total = count(packages.as_slice());
        let packages = Keyed::of(alloc, packages)?;
        Ok(PublisherRecords { packages, total })
    }

    /// The packages that have records, in the order of their names. Costs nothing.
    pub fn packages(&self) -> &[PackagePublishers]
        ensures value { result.now ≡ self.now.items }
        ensures by_name { IsByName self.now.items }
    {
        self.packages.items()
    }

    /// The records of a package. Costs a binary search among the packages.
    pub fn records_of(&self, package: &PackageName) -> &[Publisher]
        ensures value { result.now ≡ records_of self.now.items «package».now }
        ensures in_order { IsInOrder result.now }
    {
        match self.packages.get(package) {
            Some(held) => held.publishers.as_slice(),
            None => &[],
        }
    }

    /// The number of records in all. Costs nothing.
    pub fn total(&self) -> usize
        ensures { result ≡ records_total self.now.items }
    {
        self.total
    }

    /// Whether another list has the same packages with the same records. Costs a look at each record, up to the first
    /// that differs.
    pub fn has_same(&self, other: &PublisherRecords) -> bool
        ensures { IsTrue result ↔ (self.now.items ≡ other.now.items) }
    {
        self.packages == other.packages
    }

    /// The edit that puts these records in place of those of a package, and room for it. Asks that at least one of the
    /// two has records, and that all records together are then fewer than 2^64. Costs two binary searches among the
    /// packages, a copy of these records, and sometimes a move of all packages to twice the room. Refused: `NoMemory`.
    pub fn edit_for(
        &mut self,
        package: &PackageName,
        publishers: &Publishers,
    ) -> Result<KeyedEdit<PackagePublishers>, Refusal>
        requires some { records_of self.old.items «package».now ≡ [] → publishers.now ≡ [] → ⊥ }
        requires counted { records_total (with_records «package».now publishers.now self.old.items) < 2 ^ 64 }
        ensures edit { IfOk result (λ e. edited e self.old.items
            ≡ with_records «package».now publishers.now self.old.items) }
        ensures fits { IfOk result (λ e. FitsPublishers e self.new) }
        ensures content { self.new.items ≡ self.old.items }
        ensures kept { self.old.room ≤ self.new.room }
        ensures memory { IfErr result (λ e. e ≡ Refusal.NoMemory) }
    {
        if publishers.is_empty() {
            return Ok(self.edit_dropping(package));
        }
        let held = with_publishers(package, publishers)?;
        self.make_room_for(package)?;
        Ok(self.packages.edit_setting(held))
    }

    /// Makes an edit, and returns the one that undoes it. Asks that the edit fits. Takes no memory. Adding or removing
    /// a package moves those after it.
    pub fn apply(&mut self, edit: KeyedEdit<PackagePublishers>) -> KeyedEdit<PackagePublishers>
        requires { FitsPublishers edit self.old }
        ensures content { self.new.items ≡ edited edit self.old.items }
        ensures room { self.new.room ≡ room_after edit self.old.room }
        ensures fits { FitsPublishers result self.new }
        ensures back { edited result self.new.items ≡ self.old.items }
        ensures room_back { room_after result self.new.room ≡ self.old.room }
    {
        self.total = self.total_after(&edit);
        self.packages.apply(edit)
    }

    // The edit that removes a package. Asks that it has records.
    fn edit_dropping(&self, package: &PackageName) -> KeyedEdit<PackagePublishers>
        requires some { records_of self.now.items «package».now ≡ [] → ⊥ }
        requires counted { records_total (with_records «package».now [] self.now.items) < 2 ^ 64 }
        ensures edit { edited result self.now.items ≡ with_records «package».now [] self.now.items }
        ensures fits { FitsPublishers result self.now }
    {
        match self.packages.edit_dropping(package) {
            Some(edit) => edit,
            None => unreachable!(),
        }
    }

    // Makes room for one more package, unless this one is among them.
    fn make_room_for(&mut self, package: &PackageName) -> Result<(), AllocError>
        ensures items { self.new.items ≡ self.old.items }
        ensures ok { OnOk result (HasPackage self.old.items «package».now ⊎ (0 < self.new.room)) }
        ensures kept { self.old.room ≤ self.new.room }
    {
        if self.packages.has(package) {
            return Ok(());
        }
        self.packages.reserve()
    }

    // The number of records in all after an edit.
    fn total_after(&self, edit: &KeyedEdit<PackagePublishers>) -> usize
        requires { FitsPublishers edit.now self.now }
        ensures { result ≡ records_total (edited edit.now self.now.items) }
    {
        match edit {
            KeyedEdit::Put(_, held) => self.total + held.publishers.len(),
            KeyedEdit::Take(place) => self.total - self.count_at(*place),
            KeyedEdit::Swap(place, held) => {
                self.total - self.count_at(*place) + held.publishers.len()
            }
        }
    }

    // The number of records of the package at a place.
    fn count_at(&self, place: usize) -> usize
        requires { place < length self.now.items }
        ensures value { (d : PackagePublishers) → result ≡ length (slice_index_or self.now.items place d).publishers }
        ensures part { result ≤ records_total self.now.items }
    {
        self.packages.items()[place].publishers.len()
    }
}

/// After the records of a package are set, it has these records, each other package has the records that it had, and
/// the packages are in order. The total is as before, less the records held before and plus these. Setting the records
/// that are held changes nothing. Does nothing.
pub fn records_after_setting(
    records: &PublisherRecords,
    package: &PackageName,
    publishers: &Publishers,
)
    ensures own { records_of (with_records «package».now publishers.now records.now.items) «package».now
        ≡ publishers.now }
    ensures others { (other : List ℕ) → (other ≡ «package».now → ⊥)
        → records_of (with_records «package».now publishers.now records.now.items) other
        ≡ records_of records.now.items other }
    ensures by_name { IsByName (with_records «package».now publishers.now records.now.items) }
    ensures held { length (records_of records.now.items «package».now) ≤ records_total records.now.items }
    ensures total { records_total (with_records «package».now publishers.now records.now.items)
        + length (records_of records.now.items «package».now)
        ≡ records_total records.now.items + length publishers.now }
    ensures again { records_of records.now.items «package».now ≡ publishers.now
        → with_records «package».now publishers.now records.now.items ≡ records.now.items }
{
    let _ = records.packages.items();
}

// A package with these records.
fn with_publishers(
    package: &PackageName,
    publishers: &Publishers,
) -> Result<PackagePublishers, AllocError>
    ensures { IfOk result (λ held. held ≡ record { «package» = «package».now; publishers = publishers.now }) }
{
    Ok(PackagePublishers {
        package: package.clone()?,
        publishers: publishers.clone()?,
    })
}

// The number of records of some packages.
fn count(packages: &[PackagePublishers]) -> usize
    requires { records_total packages.now < 2 ^ 64 }
    ensures { result ≡ records_total packages.now }
{
    let mut total = 0;
    'packages: for held in packages {
        total += held.publishers.len();
    }
    total
}
