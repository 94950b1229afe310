//! What is kept of packages, by name.
//!
//! A package of which nothing is kept may have a slot, so that memory for it can be taken before it is kept.
ghost use Rattle.std.specs.Prelude.{◌≡◌, ◌++◌, IfErr, IfSome, None, OnErr, OnOk, Some, cond, false, is_some, true};
ghost use Rattle.std.specs.BTreeMap.{get, keys};
ghost use Rattle.std.specs.Cmp.Lexicographic.{slice_cmp};
ghost use Rattle.std.specs.Ordering.{eq_by_cmp, nat_cmp};
ghost use Rattle.std.specs.List.{All};
ghost use Rattle.std.specs.Option.{option_copied};
ghost use Rattle.vet_base.specs.Words.{Name};
ghost use Rattle.vet_entries.specs.Facts.{Facts};
ghost use Rattle.vet_masks.specs.Packages.{IsKeptOf, has_kept_slot, is_changed, kept_at, put_at};

use crate::kept::KeptPackage;
use crate::names::add_keys;
use std::alloc::Global;
use std::collections::BTreeMap;
use vet_base::name::PackageName;
use vet_base::refusal::Refusal;

// What is kept of each package, or a slot alone.
#[derive(Drop)]
pub(crate) struct KeptPackages {
    packages: BTreeMap<PackageName, Option<KeptPackage>>,
}

// A package, what is kept of it after a change, and how many looks were made for that.
#[derive(Drop)]
pub(crate) struct KeptChange {
    pub(crate) package: PackageName,
    pub(crate) kept: KeptPackage,
    pub(crate) looks: u128,
}

impl KeptPackages {
    // Nothing is kept.
    pub(crate) fn nothing(alloc: Global) -> KeptPackages
        ensures { (facts : Facts) (name : Name) → IfSome (kept_at result name) (IsKeptOf facts name) }
    {
        KeptPackages {
            packages: BTreeMap::new(alloc),
        }
    }

    // Adds the names of the packages that have a slot.
    pub(crate) fn add_names(&self, names: &mut Vec<PackageName>) -> Result<(), Refusal>
        ensures names { OnOk result (names.new.items ≡ names.old.items ++ keys self.now.packages) }
        ensures memory { IfErr result (λ e. e ≡ Refusal.NoMemory) }
    {
        add_keys(names, &self.packages)
    }

    // Whether a package has a slot.
    pub(crate) fn has_slot(&self, package: &PackageName) -> bool
        ensures { result ≡ has_kept_slot self.now «package».now }
    {
        self.packages.contains_key(package)
    }

    // What is kept of a package.
    pub(crate) fn of(&self, package: &PackageName) -> Option<&KeptPackage>
        ensures { option_copied result ≡ kept_at self.now «package».now }
    {
        match self.packages.get(package) {
            Some(Some(kept)) => Some(kept),
            _ => None,
        }
    }

    // Makes a slot for a package. One that has a slot takes no memory.
    pub(crate) fn reserve(&mut self, package: PackageName) -> Result<(), Refusal>
        ensures at { (name : Name) → kept_at self.new name ≡ kept_at self.old name }
        ensures kept { (name : Name) → has_kept_slot self.old name ≡ true → has_kept_slot self.new name ≡ true }
        ensures slot { OnOk result (has_kept_slot self.new «package» ≡ true) }
        ensures memory { IfErr result (λ e. e ≡ Refusal.NoMemory) }
    {
        if self.packages.contains_key(&package) {
            return Ok(());
        }
        make_slot(&mut self.packages, package)?;
        Ok(())
    }

    // Keeps what is new of some packages, each of which has a slot. Takes no memory.
    pub(crate) fn exchange(&mut self, changed: Vec<KeptChange>)
        requires { All (λ c. has_kept_slot self.old c.«package» ≡ true) changed.items }
        ensures at { (name : Name) → kept_at self.new name ≡ put_at changed.items name (kept_at self.old name) }
        ensures kept { (facts : Facts) → All (λ c. IsKeptOf facts c.«package» c.kept) changed.items
            → ((name : Name) → is_changed changed.items name ≡ false
            → IfSome (kept_at self.old name) (IsKeptOf facts name))
            → (name : Name) → IfSome (kept_at self.new name) (IsKeptOf facts name) }
    {
        'packages: for one in changed {
            let KeptChange {
                package,
                kept,
                looks: _,
            } = one;
            put(&mut self.packages, package, kept);
        }
    }
}

// Makes a slot in the map.
fn make_slot(
    packages: &mut BTreeMap<PackageName, Option<KeptPackage>>,
    package: PackageName,
) -> Result<(), Refusal>
    ensures made { OnOk result ((name : Name) → get (slice_cmp nat_cmp) packages.new name
        ≡ cond (eq_by_cmp (slice_cmp nat_cmp) «package» name) (Some None) (get (slice_cmp nat_cmp) packages.old name)) }
    ensures stays { OnErr result (packages.new.entries ≡ packages.old.entries) }
    ensures memory { IfErr result (λ e. e ≡ Refusal.NoMemory) }
{
    packages.insert(package, None)?;
    Ok(())
}

// Keeps what is new of a package that the map has, which takes no memory.
fn put(
    packages: &mut BTreeMap<PackageName, Option<KeptPackage>>,
    package: PackageName,
    kept: KeptPackage,
)
    requires { is_some (get (slice_cmp nat_cmp) packages.old «package») ≡ true }
    ensures { (name : Name) → get (slice_cmp nat_cmp) packages.new name
        ≡ cond (eq_by_cmp (slice_cmp nat_cmp) «package» name) (Some (Some kept))
        (get (slice_cmp nat_cmp) packages.old name) }
{
    let _ = packages.insert(package, Some(kept));
}
