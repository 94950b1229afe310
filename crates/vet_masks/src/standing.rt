//! The standing, by package.
//!
//! **The stands of a package are exchanged without a look at those of any other.**
//!
//! Packages are in the order of their names, and so the stands of all of them, one package after the other, are the
//! standing in the order of pairs. A package without a demanded pair may have a slot, which holds no stand. So memory
//! for a package can be taken before its stands are exchanged.
ghost use Rattle.std.specs.Prelude.{◌≡◌, ◌++◌, [], IfErr, IfOk, OnOk, is_some, map, true};
ghost use Rattle.std.specs.BTreeMap.{IsOrdered, get, insert_entry};
ghost use Rattle.std.specs.Cmp.Lexicographic.{slice_cmp};
ghost use Rattle.std.specs.List.{All};
ghost use Rattle.std.specs.Ordering.{nat_cmp};
ghost use Rattle.vet_base.specs.Words.{Name};
ghost use Rattle.vet_graph.specs.Standing.{IsStanding, class_in, counts_of};
ghost use Rattle.vet_masks.specs.Standings.{AreByPackage, AreOfPackage, all_stands, changes_in, has_slot};
ghost use Rattle.vet_masks.specs.Standings.{stands_at, with_all};

use crate::names::add_keys;
use std::alloc::Global;
use std::collections::BTreeMap;
use std::marker::Model;
use vet_base::name::{Name, PackageName};
use vet_base::refusal::Refusal;
use vet_base::version::VetVersion;
use vet_graph::class::Class;
use vet_graph::standing::{Counts, Stand, add_stands, class_in, counts_of};

// The demanded pairs of each package with their classes, and how many stand in each class.
#[derive(Drop)]
pub(crate) struct Standing {
    packages: BTreeMap<PackageName, Vec<Stand>>,
    counts: Counts,
}

impl Model for Standing {
    ghost use Rattle.std.specs.Prelude.{◌≡◌, List, map};
    ghost use Rattle.vet_graph.specs.Standing.{counts_of};
    ghost use Rattle.vet_graph.specs.contracts.standing.Stand as stand;
    ghost use Rattle.vet_masks.specs.Standings.{AreByPackage, PackageStands, all_stands, package_stands_code};

    ghost Value = { List PackageStands };

    ghost coded = { package_stands_code stand.the_row.coded };

    ghost view = { λ s. map (λ e. record { «package» = e.0; stands = e.1.items }) s.packages.entries };

    ghost invariant = { λ s.
        AreByPackage (map (λ e. record { «package» = e.0; stands = e.1.items }) s.packages.entries)
        × (s.counts
        ≡ counts_of (all_stands (map (λ e. record { «package» = e.0; stands = e.1.items }) s.packages.entries))) };
}

impl Standing {
    // Nothing stands.
    pub(crate) fn nothing(alloc: Global) -> Standing
        ensures { result ≡ [] }
    {
        Standing {
            packages: BTreeMap::new(alloc),
            counts: counts_of(&[]),
        }
    }

    // Packages are in the order of their names, each with stands of its own. Costs nothing.
    pub(crate) fn is_by_package(&self)
        ensures { AreByPackage self.now }
    {
        let _ = &self.packages;
    }

    // Adds the names of the packages that have a slot.
    pub(crate) fn add_names(&self, names: &mut Vec<PackageName>) -> Result<(), Refusal>
        ensures names { OnOk result (names.new.items ≡ names.old.items ++ map (λ p. p.«package») self.now) }
        ensures memory { IfErr result (λ e. e ≡ Refusal.NoMemory) }
    {
        add_keys(names, &self.packages)
    }

    // The stands of a package, in the order of their pairs.
    pub(crate) fn of(&self, package: &PackageName) -> &[Stand]
        ensures value { result.now ≡ stands_at self.now «package».now }
        ensures own { AreOfPackage «package».now result.now }
        ensures by_package { AreByPackage self.now }
    {
        match self.packages.get(package) {
            Some(stands) => stands.as_slice(),
            None => &[],
        }
    }

    // The class at which a pair stands, or none where it isn't demanded.
    pub(crate) fn class(
        &self,
        package: &PackageName,
        version: &VetVersion,
        criterion: &Name,
    ) -> Option<Class>
        ensures value { result ≡ class_in (all_stands self.now)
            (record { «package» = «package».now; version = version.now; criterion = criterion.now }) }
        ensures in_order { IsStanding (all_stands self.now) }
    {
        class_in(self.of(package), package, version, criterion)
    }

    // All stands, in the order of their pairs.
    pub(crate) fn all(&self, alloc: Global) -> Result<Vec<&Stand>, Refusal>
        ensures stands { IfOk result (λ stands. map (λ s. s.now) stands.items ≡ all_stands self.now) }
        ensures memory { IfErr result (λ e. e ≡ Refusal.NoMemory) }
    {
        let mut all = Vec::new(alloc);
        'packages: for stands in self.packages.values() {
            add_stands(&mut all, stands.as_slice())?;
        }
        Ok(all)
    }

    // How many pairs stand in each class. Costs nothing.
    pub(crate) fn counts(&self) -> Counts
        ensures value { result ≡ counts_of (all_stands self.now) }
        ensures in_order { IsStanding (all_stands self.now) }
    {
        self.counts
    }

    // Makes a slot for a package. One that has a slot takes no memory; where there is none, the standing stays.
    pub(crate) fn reserve(&mut self, alloc: Global, package: PackageName) -> Result<(), Refusal>
        ensures stands { all_stands self.new ≡ all_stands self.old }
        ensures at { (name : Name) → stands_at self.new name ≡ stands_at self.old name }
        ensures kept { (name : Name) → has_slot self.old name ≡ true → has_slot self.new name ≡ true }
        ensures slot { OnOk result (has_slot self.new «package» ≡ true) }
        ensures memory { IfErr result (λ e. e ≡ Refusal.NoMemory) }
    {
        if self.packages.contains_key(&package) {
            return Ok(());
        }
        self.packages.insert(package, Vec::new(alloc))?;
        Ok(())
    }

    // Puts stands in place of those of some packages, each of which has a slot. Takes no memory.
    pub(crate) fn exchange(&mut self, changed: Vec<Changed>, counts: Counts)
        requires slots { All (λ c. has_slot self.old c.«package» ≡ true) changed.items }
        requires own { All (λ c. AreOfPackage c.«package» c.stands.items) changed.items }
        requires counts { counts ≡ counts_of (all_stands (with_all self.old (changes_in changed.items))) }
        ensures { self.new ≡ with_all self.old (changes_in changed.items) }
    {
        'packages: for one in changed {
            let Changed { package, stands } = one;
            put(&mut self.packages, package, stands);
        }
        self.counts = counts;
    }
}

// A package, and what stands of it after a change.
#[derive(Drop)]
pub(crate) struct Changed {
    pub(crate) package: PackageName,
    pub(crate) stands: Vec<Stand>,
}

// Puts stands at a package that the map has, which takes no memory.
fn put(packages: &mut BTreeMap<PackageName, Vec<Stand>>, package: PackageName, stands: Vec<Stand>)
    requires { is_some (get (slice_cmp nat_cmp) packages.old «package») ≡ true }
    ensures entries { packages.new.entries
        ≡ insert_entry (slice_cmp nat_cmp) packages.old.entries «package» stands }
    ensures ordered { IsOrdered (slice_cmp nat_cmp) packages.new }
{
    let _ = packages.insert(package, stands);
}
