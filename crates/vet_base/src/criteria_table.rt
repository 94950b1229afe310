//! The table of criteria, and the closure of a set of them.
//!
//! **The closure of some names is the least set that contains them and, with each name, the names that it implies.**
//!
//! A table has the names in the order of their bytes. A criterion is its place there, counted from 0, and a set of
//! criteria is a set of places below `MOST_CRITERIA` (`criteria_set`). So sets are joined and compared without looking
//! at a name, and take no memory. Names are looked up once, when they are read. A set has a meaning only for the table
//! that made it: after a change of the table, another name may be at the same place.
//!
//! Criteria may imply one another in a cycle, so the code never follows them from name to name until it ends. The
//! closures of all criteria are computed together (`closures`), criterion by criterion, from the last one back to the
//! first. At each point they count the ways through the criteria seen so far. One more criterion adds, to each closure
//! that has it, all that its own implied names reach. At the end all ways are counted, whatever the cycles.
//!
//! The definition goes the same way (`reached_by`), and a law ties it to the least set (`closure_is_least`): a name is
//! in the closure exactly if it is one of those given, or a name of the closure implies it.
//!
//! The same closures give the criteria that *lead to* a set: those whose closure has a place of the set. A violation
//! condemns for these.
//!
//! Cost: for a table of n criteria, n looks at the names that each implies and n times n unions of words. Closing a set
//! then costs one look for each place. To close many sets of one table, make its closures once.
ghost use Rattle.std.specs.Prelude.{◌≡◌, ◌⊎◌, ◌<◌, true, IfOk, IfErr, OnOk, OnErr, IfSome};
ghost use Rattle.std.specs.Option.{option_copied};
ghost use Rattle.std.specs.FinMap as map;
ghost use Rattle.vet_base.specs.Criteria.{IsTable, built_in_criteria, closure_of, is_in, leading_to, least_unknown};
ghost use Rattle.vet_base.specs.Criteria.{place_of, placed, ClosureIsLeast, LedTo, PlacedNamesAreIn, PlacesAreOfNames};
ghost use Rattle.vet_base.specs.CriteriaChanges.{is_built_in, is_full_for, is_implied, remove_verdict, set_verdict};
ghost use Rattle.vet_base.specs.CriteriaChanges.{unknown_beside};
ghost use Rattle.vet_base.specs.Closures.{AreClosures};
ghost use Rattle.vet_base.specs.Defined.{table_told};
ghost use Rattle.vet_base.specs.Gives.{Answers, Gives, Refuses};

use crate::closures::Closures;
use crate::criteria_set::CriteriaSet;
use crate::criterion::Criterion;
use crate::defined::check_defined;
use crate::definitions::{Definitions, SAFE_TO_DEPLOY, SAFE_TO_RUN};
use crate::limits::MOST_CRITERIA;
use crate::name::Name;
use crate::names::Names;
use crate::refusal::Refusal;
use std::alloc::{AllocError, Global};
use std::marker::Model;

/// A table of at most `MOST_CRITERIA` criteria with different names, including the built-in ones. Each name that a
/// criterion implies is in the table. Criteria may imply one another in a cycle.
pub struct CriteriaTable {
    definitions: Definitions,
}

impl Drop for CriteriaTable {
    fn drop(self) {
        let CriteriaTable { definitions: _ } = self;
    }
}

impl Model for CriteriaTable {
    ghost use Rattle.std.specs.Coded.{coded_list, coded_ℕ};
    ghost use Rattle.std.specs.FinMap as map;
    ghost use Rattle.vet_base.specs.Criteria.{Criteria, IsTable};
    ghost use Rattle.vet_base.specs.Encodings.{criterion_code};

    ghost Value = { Criteria };

    ghost coded = { map.code (coded_list coded_ℕ) criterion_code };

    ghost view = { λ t. t.definitions };

    ghost invariant = { λ t. IsTable t.definitions };
}

impl CriteriaTable {
    /// The table of the built-in criteria. Refused: `NoMemory`.
    pub fn new(alloc: Global) -> Result<CriteriaTable, Refusal>
        ensures ok { IfOk result (λ t. t ≡ built_in_criteria) }
        ensures table { IfOk result IsTable }
        ensures memory { IfErr result (λ e. e ≡ Refusal.NoMemory) }
    {
        Ok(CriteriaTable {
            definitions: Definitions::new(alloc)?,
        })
    }

    /// The table of the built-in criteria and these. Refused, in this order: `TooManyCriteria` if there would be more
    /// than a table holds, `UnknownCriterion` with the least name that one of these implies and that is not in the
    /// table, and `BuiltInCriterion` if one of these has a built-in name. `NoMemory` may come at any point.
    pub fn of(alloc: Global, criteria: Vec<Criterion>) -> Result<CriteriaTable, Refusal>
        ensures told { Gives (λ table. table) (table_told criteria.items) result }
        ensures table { IfOk result IsTable }
    {
        check_defined(alloc, criteria.as_slice())?;
        Ok(CriteriaTable {
            definitions: Definitions::with_built_in(alloc, criteria)?,
        })
    }

    /// Whether a name is in the table.
    pub fn has(&self, name: &Name) -> bool
        ensures { result ≡ map.contains_key self.now name.now }
    {
        self.definitions.has(name)
    }

    /// The criterion of a name.
    pub fn get(&self, name: &Name) -> Option<&Criterion>
        ensures { option_copied result ≡ map.get self.now name.now }
    {
        self.definitions.get(name)
    }

    /// The table's names, in the order of their bytes.
    pub fn names(&self) -> &[Name]
        ensures names { result.now ≡ map.keys self.now }
        ensures table { IsTable self.now }
    {
        self.definitions.names()
    }

    /// The place of a name among the table's names.
    pub fn place(&self, name: &Name) -> Option<usize>
        ensures value { result ≡ place_of self.now name.now }
        ensures within { IfSome result (λ p. p < MOST_CRITERIA) }
    {
        self.definitions.place(name)
    }

    /// The least of some names that the table lacks.
    pub fn least_unknown<'a>(&self, names: &'a Names) -> Option<&'a Name>
        ensures { option_copied result ≡ least_unknown self.now names.now }
    {
        for name in names.as_slice() {
            if !self.has(name) {
                return Some(name);
            }
        }
        None
    }

    /// The set of those of these names that the table has, without the names that they imply.
    pub fn set_of(&self, names: &Names) -> CriteriaSet
        ensures { result ≡ placed self.now names.now }
    {
        self.definitions.set_of(names)
    }

    /// The closure of some names: these, and all that they imply directly or through others. Refused:
    /// `UnknownCriterion` with the least name that the table lacks, or `NoMemory` in place of that refusal only.
    pub fn closure(&self, names: &Names) -> Result<CriteriaSet, Refusal>
        ensures known { least_unknown self.now names.now ≡ None
            → result ≡ Ok (placed self.now (closure_of self.now names.now)) }
        ensures unknown { IfSome (least_unknown self.now names.now) (λ n.
            (result ≡ Err (Refusal.UnknownCriterion n)) ⊎ (result ≡ Err Refusal.NoMemory)) }
    {
        if let Some(name) = self.least_unknown(names) {
            return Err(Refusal::UnknownCriterion(name.clone()?));
        }
        Ok(self.closures().close(&self.set_of(names)))
    }

    /// The criteria that are in the set or imply one that is, directly or through others. Costs what `closures` does.
    pub fn leading_to(&self, set: &CriteriaSet) -> CriteriaSet
        ensures { result ≡ leading_to self.now set.now }
    {
        self.closures().leading_to(set)
    }

    /// The closures of all its criteria, for many look-ups.
    pub fn closures(&self) -> Closures
        ensures { AreClosures self.now result }
    {
        self.definitions.closures()
    }

    /// Whether a name is new and the table is full.
    pub fn is_full_for(&self, name: &Name) -> bool
        ensures { result ≡ is_full_for self.now name.now }
    {
        !self.has(name) && self.names().len() >= MOST_CRITERIA
    }

    /// The least name that a criterion implies and that is neither in the table nor its own.
    pub fn unknown_beside<'a>(&self, criterion: &'a Criterion) -> Option<&'a Name>
        ensures { option_copied result ≡ unknown_beside self.now criterion.now }
    {
        for name in criterion.implies.as_slice() {
            if *name != criterion.name && !self.has(name) {
                return Some(name);
            }
        }
        None
    }

    /// Adds a criterion, or replaces the one of its name, which takes no memory. Refused, in this order:
    /// `TooManyCriteria` if its name is new and the table is full, `UnknownCriterion` with the least name that it
    /// implies and that is neither in the table nor its own, and `BuiltInCriterion` if its name is built in. `NoMemory`
    /// replaces no refusal but `UnknownCriterion`. After a refusal the table is as it was.
    pub fn set(&mut self, criterion: Criterion) -> Result<(), Refusal>
        ensures refused { IfErr (set_verdict self.old criterion) (λ e. Refuses e result) }
        ensures memory { set_verdict self.old criterion ≡ Ok tt → IfErr result (λ e. e ≡ Refusal.NoMemory) }
        ensures ok { OnOk result (self.new ≡ map.insert self.old criterion.name criterion) }
        ensures held { set_verdict self.old criterion ≡ Ok tt
            → map.contains_key self.old criterion.name ≡ true → result ≡ Ok tt }
        ensures err { OnErr result (self.new ≡ self.old) }
        ensures table { IsTable self.new }
    {
        self.check_set(&criterion)?;
        self.definitions.set(criterion)
    }

    /// Whether a criterion of another name implies a name.
    pub fn is_implied(&self, name: &Name) -> bool
        ensures { result ≡ is_implied self.now name.now }
    {
        for criterion in self.definitions.criteria() {
            if criterion.name != *name && criterion.implies.contains(name) {
                return true;
            }
        }
        false
    }

    /// Removes the criterion of a name. Refused, in this order: `UnknownCriterion` if the table lacks the name,
    /// `BuiltInCriterion` if it is built in, and `CriterionInUse` if another criterion implies it. After a refusal the
    /// table is as it was. Takes no memory.
    pub fn remove(&mut self, name: Name) -> Result<(), Refusal>
        ensures refused { IfErr (remove_verdict self.old name) (λ e. result ≡ Err e) }
        ensures done { remove_verdict self.old name ≡ Ok tt → result ≡ Ok tt }
        ensures ok { OnOk result (self.new ≡ map.remove self.old name) }
        ensures err { OnErr result (self.new ≡ self.old) }
        ensures table { IsTable self.new }
    {
        if !self.has(&name) {
            return Err(Refusal::UnknownCriterion(name));
        }
        if is_built_in(&name) {
            return Err(Refusal::BuiltInCriterion);
        }
        if self.is_implied(&name) {
            return Err(Refusal::CriterionInUse);
        }
        self.definitions.remove(&name);
        Ok(())
    }
}

impl Clone for CriteriaTable {
    ghost is_clone = { λ a b. b ≡ a };

    fn clone(&self) -> Result<CriteriaTable, AllocError> {
        Ok(CriteriaTable {
            definitions: self.definitions.clone()?,
        })
    }
}

impl CriteriaSet {
    /// Whether the criterion of a name of the table is in the set.
    pub fn contains(&self, name: &Name, table: &CriteriaTable) -> bool
        ensures { result ≡ is_in table.now self.now name.now }
    {
        match table.place(name) {
            Some(place) => self.has(place),
            None => false,
        }
    }
}

/// Whether a name is that of a built-in criterion.
pub fn is_built_in(name: &Name) -> bool
    ensures { result ≡ is_built_in name.now }
{
    name.as_str() == SAFE_TO_RUN || name.as_str() == SAFE_TO_DEPLOY
}

/// The closure of some names has a name exactly if it is one of them, or a name of the closure implies it.
pub fn closure_is_least()
    ensures { ClosureIsLeast }
{}

/// The place of a name is among those of a set of names exactly if the table and the set have the name.
pub fn placed_names_are_in()
    ensures { PlacedNamesAreIn }
{}

/// The place of a name is its position among the table's names.
pub fn places_are_of_names()
    ensures { PlacesAreOfNames }
{}

/// The criterion at a place leads to a set exactly if its closure meets the set. No place past the table's end leads
/// to one.
pub fn led_to()
    ensures { LedTo }
{}

impl CriteriaTable {
    // Checks that a criterion may be set. Refused as `set` is.
    fn check_set(&self, criterion: &Criterion) -> Result<(), Refusal>
        ensures { Answers (set_verdict self.now criterion.now) result }
    {
        if self.is_full_for(&criterion.name) {
            return Err(Refusal::TooManyCriteria);
        }
        if let Some(name) = self.unknown_beside(criterion) {
            return Err(Refusal::UnknownCriterion(name.clone()?));
        }
        if is_built_in(&criterion.name) {
            return Err(Refusal::BuiltInCriterion);
        }
        Ok(())
    }
}
