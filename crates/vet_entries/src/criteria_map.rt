//! Maps from a peer's criteria to one's own.
ghost use Rattle.std.specs.Prelude.{◌≡◌, ◌↔◌, [], IfOk, IsTrue, Ok, OnOk, OnErr};
ghost use Rattle.std.specs.Cmp.Lexicographic.{slice_cmp};
ghost use Rattle.std.specs.FinMap as map;
ghost use Rattle.std.specs.FinSet as set;
ghost use Rattle.std.specs.List.{list_any};
ghost use Rattle.std.specs.Option.{option_copied};
ghost use Rattle.std.specs.Ordering.{nat_cmp};
ghost use Rattle.vet_base.specs.Criteria.{least_unknown};
ghost use Rattle.vet_base.specs.Keyed.{all_set};
ghost use Rattle.vet_base.specs.Names.{IsRising};
ghost use Rattle.vet_entries.specs.CriteriaMap.{by_name, mapped_name, names_of};
ghost use Rattle.vet_entries.specs.Mapped.{targets};

use std::alloc::{AllocError, Global};
use std::marker::Model;
use vet_base::criteria_table::CriteriaTable;
use vet_base::defined::lesser;
use vet_base::keyed::{ExactItem, HasKey, Keyed};
use vet_base::name::Name;
use vet_base::names::Names;

/// A criterion of a peer, and the own criteria that it stands for.
pub struct MappedCriterion {
    /// The peer's criterion.
    pub name: Name,
    /// The own criteria that it stands for.
    pub criteria: Names,
}

impl Drop for MappedCriterion {
    fn drop(self) {
        let MappedCriterion {
            name: _,
            criteria: _,
        } = self;
    }
}

impl Clone for MappedCriterion {
    ghost use Rattle.std.specs.Prelude.{◌≡◌};

    ghost is_clone = { λ a b. b ≡ a };

    fn clone(&self) -> Result<MappedCriterion, AllocError> {
        Ok(MappedCriterion {
            name: self.name.clone()?,
            criteria: self.criteria.clone()?,
        })
    }
}

impl PartialEq for MappedCriterion {
    ghost use Rattle.std.specs.Cmp.{decided, partial_equiv_from_equiv};
    ghost use Rattle.vet_entries.specs.CriteriaMap.{mapped_eq};
    ghost use Rattle.vet_entries.specs.CriteriaMapLaws.{mapped_eq-Decides};

    ghost eq = { mapped_eq };

    ghost laws = { partial_equiv_from_equiv (decided mapped_eq mapped_eq-Decides) };

    fn eq(&self, other: &MappedCriterion) -> bool {
        self.name == other.name && self.criteria == other.criteria
    }
}

impl Eq for MappedCriterion {
    ghost use Rattle.std.specs.Cmp.{decided};
    ghost use Rattle.vet_entries.specs.CriteriaMap.{mapped_eq};
    ghost use Rattle.vet_entries.specs.CriteriaMapLaws.{mapped_eq-Decides};

    ghost laws = { decided mapped_eq mapped_eq-Decides };
}

impl HasKey for MappedCriterion {
    ghost use Rattle.vet_entries.specs.CriteriaMap.{mapped_name};

    type Key = Name;

    ghost key_of = { mapped_name };

    fn key(&self) -> &Name {
        &self.name
    }
}

impl ExactItem for MappedCriterion {
    ghost use Rattle.vet_entries.specs.CriteriaMapLaws.{mapped_eq-Decides};

    ghost only_copies = { λ a b h. h };

    ghost only_itself = { mapped_eq-Decides };
}

/// A map from a peer's criteria to one's own, in the order of the names' bytes, each name once (The Cargo Vet Book,
/// config: `criteria-map`).
#[derive(Drop)]
pub struct CriteriaMap {
    items: Keyed<MappedCriterion>,
}

impl Model for CriteriaMap {
    ghost use Rattle.std.specs.Coded.{coded_list, coded_ℕ};
    ghost use Rattle.std.specs.FinMap as map;
    ghost use Rattle.std.specs.FinSet as set;
    ghost use Rattle.std.specs.Ordering.{nat_cmp};
    ghost use Rattle.std.specs.Cmp.Lexicographic.{slice_cmp};
    ghost use Rattle.vet_base.specs.Keyed.{IsByKey};
    ghost use Rattle.vet_entries.specs.CriteriaMap.{NamesByName, by_name, mapped_name};

    ghost Value = { NamesByName };

    ghost coded = { map.code (coded_list coded_ℕ) (set.code (coded_list coded_ℕ)) };

    ghost view = { λ m. map.from_sorted (by_name m.items.items) };

    ghost invariant = { λ m. IsByKey (slice_cmp nat_cmp) mapped_name m.items.items };
}

impl CriteriaMap {
    /// The map without criteria. Takes no memory.
    pub fn new(alloc: Global) -> CriteriaMap
        ensures { result ≡ map.empty }
    {
        CriteriaMap {
            items: Keyed::new(alloc),
        }
    }

    /// The map of these criteria, which may be in any order. If several have the same name, the last of them is kept.
    /// Takes a time of n log n.
    pub fn of(alloc: Global, items: Vec<MappedCriterion>) -> Result<CriteriaMap, AllocError>
        ensures { IfOk result (λ m.
            m ≡ map.from_sorted (by_name (all_set (slice_cmp nat_cmp) mapped_name [] items.items))) }
    {
        Ok(CriteriaMap {
            items: Keyed::of(alloc, items)?,
        })
    }

    /// Sets the criteria that a criterion of the peer stands for, in place of any that it stood for. Takes no memory if
    /// the map has the criterion. If memory runs out, the map is as it was.
    pub fn insert(&mut self, name: Name, criteria: Names) -> Result<(), AllocError>
        ensures ok { OnOk result (self.new ≡ map.insert self.old name criteria) }
        ensures held { IsTrue (map.contains_key self.old name) → result ≡ Ok tt }
        ensures err { OnErr result (self.new ≡ self.old) }
    {
        self.items.insert(MappedCriterion { name, criteria })?;
        Ok(())
    }

    /// The criteria that a criterion of the peer stands for, if the map has it.
    pub fn get(&self, name: &Name) -> Option<&Names>
        ensures { option_copied result ≡ map.get self.now name.now }
    {
        match self.items.get(name) {
            Some(held) => Some(&held.criteria),
            None => None,
        }
    }

    /// The peer's criteria with the criteria that they stand for, in the order of the names' bytes.
    pub fn items(&self) -> &[MappedCriterion]
        ensures entries { by_name result.now ≡ map.entries self.now }
        ensures rising { IsRising (names_of result.now) }
        ensures map { self.now ≡ map.from_sorted (by_name result.now) }
    {
        self.items.items()
    }

    /// Whether one of the peer's criteria stands for a name, by itself or with others. Costs a look at each item, up to
    /// the first that does.
    pub fn leads_to(&self, name: &Name) -> bool
        ensures { result ≡ set.contains (targets self.now) name.now }
    {
        lists(self.items(), name)
    }

    /// The least name that a table lacks and that one of the peer's criteria stands for, if there is one. Costs a look
    /// at each item.
    pub fn least_target_outside<'a>(&'a self, table: &CriteriaTable) -> Option<&'a Name>
        ensures { option_copied result ≡ least_unknown table.now (targets self.now) }
    {
        let mut least = None;
        for item in self.items() {
            least = lesser(least, table.least_unknown(&item.criteria));
        }
        least
    }

    /// The number of the peer's criteria in the map.
    pub fn len(&self) -> usize
        ensures { result ≡ map.len self.now }
    {
        self.items.len()
    }

    /// Whether the map has no criteria.
    pub fn is_empty(&self) -> bool
        ensures { IsTrue result ↔ (self.now ≡ map.empty) }
    {
        self.items.is_empty()
    }
}

// Whether one of some items lists a name.
fn lists(items: &[MappedCriterion], name: &Name) -> bool
    ensures { result ≡ list_any (λ m. set.contains m.criteria name.now) items.now }
{
    items.iter().any(|item| item.criteria.contains(name))
}

impl Clone for CriteriaMap {
    ghost use Rattle.std.specs.Prelude.{◌≡◌};

    ghost is_clone = { λ a b. b ≡ a };

    fn clone(&self) -> Result<CriteriaMap, AllocError> {
        Ok(CriteriaMap {
            items: self.items.clone()?,
        })
    }
}

impl PartialEq for CriteriaMap {
    ghost use Rattle.std.specs.Cmp.{decided, partial_equiv_from_equiv};
    ghost use Rattle.std.specs.Prelude.{IsTrue, ◌↔◌, ◌≡◌};
    ghost use Rattle.vet_entries.specs.CriteriaMap.{map_eq};
    ghost use Rattle.vet_entries.specs.CriteriaMapLaws.{map_eq-Decides};

    ghost eq = { map_eq };

    ghost laws = { partial_equiv_from_equiv (decided map_eq map_eq-Decides) };

    fn eq(&self, other: &CriteriaMap) -> bool
        ensures value { result ≡ map_eq self.now other.now }
        ensures same { IsTrue result ↔ (self.now ≡ other.now) }
    {
        self.items == other.items
    }
}

impl Eq for CriteriaMap {
    ghost use Rattle.std.specs.Cmp.{decided};
    ghost use Rattle.vet_entries.specs.CriteriaMap.{map_eq};
    ghost use Rattle.vet_entries.specs.CriteriaMapLaws.{map_eq-Decides};

    ghost laws = { decided map_eq map_eq-Decides };
}
