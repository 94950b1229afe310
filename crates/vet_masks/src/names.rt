//! Lists of the packages that may change where all are touched.
ghost use Rattle.std.specs.Prelude.{◌≡◌, ◌++◌, [], OnOk, IfErr, List, false, map, true};
ghost use Rattle.std.specs.BTreeMap.{keys};
ghost use Rattle.vet_base.specs.Words.{Name};
ghost use Rattle.vet_entries.specs.Step.{entries_of};
ghost use Rattle.vet_masks.specs.Packages.{has_kept_slot, is_among};

use crate::packages::KeptPackages;
use std::collections::BTreeMap;
use vet_base::name::PackageName;
use vet_base::refusal::Refusal;
use vet_demand::pair::Pair;
use vet_entries::facts::{EntryFacts, HeldEntry};

// What is of a package.
pub(crate) trait OfPackage: Drop {
    // Its name.
    ghost package_of: { Self → Name };

    // The package of which it is.
    fn package(&self) -> &PackageName
        ensures { result.now ≡ package_of self.now };
}

impl OfPackage for Pair {
    ghost package_of = { λ p. p.«package» };

    fn package(&self) -> &PackageName {
        &self.package
    }
}

impl OfPackage for HeldEntry {
    ghost package_of = { λ h. h.entry.«package» };

    fn package(&self) -> &PackageName {
        &self.entry.package
    }
}

// Adds the packages of some items that have no slot among those of what is kept.
pub(crate) fn add_other_packages<T: OfPackage>(
    names: &mut Vec<PackageName>,
    items: &[T],
    kept: &KeptPackages,
) -> Result<(), Refusal>
    ensures names { OnOk result ((more : List Name) × (names.new.items ≡ names.old.items ++ more)) }
    ensures others { OnOk result ((name : Name) → is_among name names.new.items ≡ false
        → has_kept_slot kept.now name ≡ false → is_among name (map T.package_of items.now) ≡ false) }
    ensures memory { IfErr result (λ e. e ≡ Refusal.NoMemory) }
{
    'items: for item in items {
        add_other(names, item.package(), kept)?;
    }
    Ok(())
}

// Adds a package, unless it has such a slot.
fn add_other(
    names: &mut Vec<PackageName>,
    package: &PackageName,
    kept: &KeptPackages,
) -> Result<(), Refusal>
    ensures names { OnOk result ((more : List Name) × (names.new.items ≡ names.old.items ++ more)) }
    ensures there { OnOk result (has_kept_slot kept.now «package».now ≡ false
        → is_among «package».now names.new.items ≡ true) }
    ensures memory { IfErr result (λ e. e ≡ Refusal.NoMemory) }
{
    if kept.has_slot(package) {
        return Ok(());
    }
    names.push(package.clone()?)?;
    Ok(())
}

// Adds the packages that a map has.
pub(crate) fn add_keys<V: Drop>(
    names: &mut Vec<PackageName>,
    packages: &BTreeMap<PackageName, V>,
) -> Result<(), Refusal>
    ensures names { OnOk result (names.new.items ≡ names.old.items ++ keys packages.now) }
    ensures memory { IfErr result (λ e. e ≡ Refusal.NoMemory) }
{
    'names: for name in packages.keys() {
        names.push(name.clone()?)?;
    }
    Ok(())
}

// Adds the packages of all entries, one's own and those of each peer, that have no such slot.
pub(crate) fn add_entries(
    names: &mut Vec<PackageName>,
    facts: &EntryFacts,
    kept: &KeptPackages,
) -> Result<(), Refusal>
    ensures names { OnOk result ((more : List Name) × (names.new.items ≡ names.old.items ++ more)) }
    ensures entries { OnOk result ((name : Name) → is_among name names.new.items ≡ false
        → has_kept_slot kept.now name ≡ false → entries_of facts.now.content name ≡ []) }
    ensures memory { IfErr result (λ e. e ≡ Refusal.NoMemory) }
{
    add_other_packages(names, facts.entries(), kept)?;
    'peers: for peer in facts.peers() {
        add_other_packages(names, peer.content.entries(), kept)?;
    }
    Ok(())
}
