//! Criteria for the dependencies of a package.
ghost use Rattle.std.specs.Prelude.{◌≡◌, ◌↔◌, ◌==◌, [], IfOk, IsTrue, OnErr, OnOk, Ok, is_some, length};
ghost use Rattle.std.specs.Cmp.{decided, partial_equiv_from_equiv};
ghost use Rattle.std.specs.Cmp.Lexicographic.{slice_cmp};
ghost use Rattle.std.specs.Option.{option_copied};
ghost use Rattle.std.specs.Ordering.{nat_cmp};
ghost use Rattle.vet_base.specs.Keyed.{all_set};
ghost use Rattle.vet_demand.specs.DependencyCriteria.{IsByPackage, criteria_for, dependencies_eq, dependency_eq};
ghost use Rattle.vet_demand.specs.DependencyCriteria.{item_name, with_criteria};
ghost use Rattle.vet_demand.specs.DependencyCriteriaLaws.{dependencies_eq-Decides, dependency_eq-Decides};

use std::alloc::{AllocError, Global};
use std::marker::Model;
use vet_base::keyed::{ExactItem, HasKey, Keyed};
use vet_base::name::PackageName;
use vet_base::names::Names;

/// The criteria that a package passes along its edges to a dependency of this name. An empty set is kept,
/// and passes nothing.
pub struct DependencyItem {
    pub package: PackageName,
    pub criteria: Names,
}

impl Drop for DependencyItem {
    fn drop(self) {
        let DependencyItem {
            package: _,
            criteria: _,
        } = self;
    }
}

impl Clone for DependencyItem {
    ghost is_clone = { λ a b. b ≡ a };

    fn clone(&self) -> Result<DependencyItem, AllocError> {
        Ok(DependencyItem {
            package: self.package.clone()?,
            criteria: self.criteria.clone()?,
        })
    }
}

impl PartialEq for DependencyItem {
    ghost eq = { dependency_eq };

    ghost laws = { partial_equiv_from_equiv (decided dependency_eq dependency_eq-Decides) };

    fn eq(&self, other: &DependencyItem) -> bool
        ensures value { result ≡ dependency_eq self.now other.now }
        ensures same { IsTrue result ↔ (self.now ≡ other.now) }
    {
        self.package == other.package && self.criteria == other.criteria
    }
}

impl Eq for DependencyItem {
    ghost laws = { decided dependency_eq dependency_eq-Decides };
}

impl HasKey for DependencyItem {
    type Key = PackageName;

    ghost key_of = { item_name };

    fn key(&self) -> &PackageName {
        &self.package
    }
}

impl ExactItem for DependencyItem {
    ghost only_copies = { λ a b h. h };

    ghost only_itself = { dependency_eq-Decides };
}

/// Criteria by the names of dependencies, in the order of the names' bytes, each name once.
#[derive(Drop)]
pub struct DependencyCriteria {
    items: Keyed<DependencyItem>,
}

impl Model for DependencyCriteria {
    ghost use Rattle.std.specs.Coded.{coded_list};
    ghost use Rattle.std.specs.Prelude.{List};
    ghost use Rattle.vet_demand.specs.contracts.dependency_criteria.DependencyItem as item;
    ghost use Rattle.vet_demand.specs.declared.dependency_criteria.DependencyItem.{DependencyItem};

    ghost Value = { List DependencyItem };

    ghost coded = { coded_list item.the_row.coded };

    ghost view = { λ d. d.items.items };
}

impl DependencyCriteria {
    /// No criteria. Takes no memory.
    pub fn new(alloc: Global) -> DependencyCriteria
        ensures { result ≡ [] }
    {
        DependencyCriteria {
            items: Keyed::new(alloc),
        }
    }

    /// Makes it from items in any order. The last item of each name remains. Takes a time of n log n.
    pub fn of(alloc: Global, items: Vec<DependencyItem>) -> Result<DependencyCriteria, AllocError>
        ensures { IfOk result (λ d. d ≡ all_set (slice_cmp nat_cmp) item_name [] items.items) }
    {
        Ok(DependencyCriteria {
            items: Keyed::of(alloc, items)?,
        })
    }

    /// Sets the criteria of a name. Costs a binary search, and moves the items after the name. If memory runs out,
    /// nothing changes.
    pub fn insert(&mut self, name: PackageName, criteria: Names) -> Result<(), AllocError>
        ensures ok { OnOk result (self.new ≡ with_criteria self.old name criteria) }
        ensures held { IsTrue (is_some (criteria_for self.old name)) → result ≡ Ok tt }
        ensures err { OnErr result (self.new ≡ self.old) }
    {
        self.items.insert(DependencyItem {
            package: name,
            criteria,
        })
    }

    /// The criteria of a name, if there are any. Takes no memory, and a time of log n.
    pub fn get(&self, name: &PackageName) -> Option<&Names>
        ensures { option_copied result ≡ criteria_for self.now name.now }
    {
        match self.items.get(name) {
            Some(held) => Some(&held.criteria),
            None => None,
        }
    }

    /// The names with their criteria, in the order of the names' bytes.
    pub fn items(&self) -> &[DependencyItem]
        ensures value { result.now ≡ self.now }
        ensures by_package { IsByPackage self.now }
    {
        self.items.items()
    }

    /// The number of names.
    pub fn len(&self) -> usize
        ensures { result ≡ length self.now }
    {
        self.items.len()
    }

    /// Whether there are no names.
    pub fn is_empty(&self) -> bool
        ensures { result ≡ (length self.now == 0) }
    {
        self.items.is_empty()
    }
}

impl Clone for DependencyCriteria {
    ghost is_clone = { λ a b. b ≡ a };

    fn clone(&self) -> Result<DependencyCriteria, AllocError> {
        Ok(DependencyCriteria {
            items: self.items.clone()?,
        })
    }
}

impl PartialEq for DependencyCriteria {
    ghost eq = { dependencies_eq };

    ghost laws = { partial_equiv_from_equiv (decided dependencies_eq dependencies_eq-Decides) };

    fn eq(&self, other: &DependencyCriteria) -> bool
        ensures value { result ≡ dependencies_eq self.now other.now }
        ensures same { IsTrue result ↔ (self.now ≡ other.now) }
    {
        self.items == other.items
    }
}

impl Eq for DependencyCriteria {
    ghost laws = { decided dependencies_eq dependencies_eq-Decides };
}
