//! Criteria by their names, as a table and the content of a peer hold them.
ghost use Rattle.std.specs.Prelude.{◌≡◌, ◌<◌, ◌≤◌, [], ◌∷◌, ℕ, IfErr, IfOk, IfSome, None, Ok, OnErr, OnOk, false};
ghost use Rattle.std.specs.Prelude.{insert, length, map as mapped, slice_index_or, true, vec_len};
ghost use Rattle.std.specs.Option.{option_copied};
ghost use Rattle.std.specs.FinMap as map;
ghost use Rattle.std.specs.FinSet as set;
ghost use Rattle.vet_base.specs.Closures.{AreClosures};
ghost use Rattle.vet_base.specs.Criteria.{built_in_criteria, deploy_criterion, implied_by, place_of, placed};
ghost use Rattle.vet_base.specs.Criteria.{run_criterion, safe_to_deploy, safe_to_run};
ghost use Rattle.vet_base.specs.Defined.{defined};
ghost use Rattle.vet_base.specs.Definitions.{SameDefinitions, by_name};
ghost use Rattle.vet_base.specs.Name.{is_name};

use crate::closures::Closures;
use crate::criteria_set::CriteriaSet;
use crate::criterion::Criterion;
use crate::limits::{MOST_CRITERIA, MOST_PEER_CRITERIA};
use crate::name::Name;
use crate::names::Names;
use crate::refusal::Refusal;
use std::alloc::{AllocError, Global};
use std::marker::Model;

/// The name of the built-in criterion that implies nothing.
pub(crate) const SAFE_TO_RUN: &str = "safe-to-run";

/// The name of the built-in criterion that implies the other.
pub(crate) const SAFE_TO_DEPLOY: &str = "safe-to-deploy";

/// At most `MOST_CRITERIA` criteria with different names. Unlike in a table, a criterion may imply a name that none of
/// them has. Such a name implies nothing further.
pub struct Definitions {
    names: Vec<Name>,
    criteria: Vec<Criterion>,
}

impl Drop for Definitions {
    fn drop(self) {
        let Definitions {
            names: _,
            criteria: _,
        } = self;
    }
}

impl Model for Definitions {
    ghost use Rattle.std.specs.Coded.{coded_list, coded_ℕ};
    ghost use Rattle.std.specs.FinMap as map;
    ghost use Rattle.vet_base.specs.Criteria.{Criteria};
    ghost use Rattle.vet_base.specs.Encodings.{criterion_code};
    ghost use Rattle.vet_base.specs.Definitions.{by_name, IsKept};

    ghost Value = { Criteria };

    ghost coded = { map.code (coded_list coded_ℕ) criterion_code };

    ghost view = { λ d. map.from_sorted (by_name d.criteria.items) };

    ghost invariant = { λ d. IsKept d.names.items d.criteria.items };
}

impl Definitions {
    /// The built-in criteria. Refused: `NoMemory`.
    pub fn new(alloc: Global) -> Result<Definitions, Refusal>
        ensures ok { IfOk result (λ d. d ≡ built_in_criteria) }
        ensures memory { IfErr result (λ e. e ≡ Refusal.NoMemory) }
    {
        let mut names = Vec::new(alloc);
        let mut criteria = Vec::new(alloc);
        list_names(alloc, &mut names)?;
        list_built_in(alloc, &mut criteria)?;
        Ok(Definitions { names, criteria })
    }

    /// The built-in criteria and these, which must be at most 126. A later one replaces an earlier one of the same
    /// name. Costs a search and a move for each. Refused: `NoMemory`.
    pub fn of(alloc: Global, criteria: Vec<Criterion>) -> Result<Definitions, Refusal>
        requires few { length criteria.items ≤ MOST_PEER_CRITERIA }
        ensures ok { IfOk result (λ d. d ≡ defined criteria.items) }
        ensures memory { IfErr result (λ e. e ≡ Refusal.NoMemory) }
    {
        Definitions::with_built_in(alloc, criteria)
    }

    /// Whether a criterion has this name.
    pub fn has(&self, name: &Name) -> bool
        ensures { result ≡ map.contains_key self.now name.now }
    {
        self.names.binary_search(name).is_ok()
    }

    /// The criterion of a name.
    pub fn get(&self, name: &Name) -> Option<&Criterion>
        ensures { option_copied result ≡ map.get self.now name.now }
    {
        match self.names.binary_search(name) {
            Ok(place) => Some(&self.criteria[place]),
            Err(_) => None,
        }
    }

    /// The names, in the order of their bytes.
    pub fn names(&self) -> &[Name]
        ensures names { result.now ≡ map.keys self.now }
        ensures few { length result.now ≤ MOST_CRITERIA }
    {
        self.names.as_slice()
    }

    /// The criteria, in the order of their names' bytes.
    pub fn criteria(&self) -> &[Criterion]
        ensures entries { by_name result.now ≡ map.entries self.now }
        ensures names { mapped (λ c. c.name) result.now ≡ map.keys self.now }
        ensures values { result.now ≡ map.values self.now }
        ensures implied { (p : ℕ) (c : Criterion) → p < length result.now
            → implied_by self.now (slice_index_or (map.keys self.now) p []) ≡ (slice_index_or result.now p c).implies }
    {
        self.criteria.as_slice()
    }

    /// The place of a name among the names.
    pub fn place(&self, name: &Name) -> Option<usize>
        ensures value { result ≡ place_of self.now name.now }
        ensures within { IfSome result (λ p. p < MOST_CRITERIA) }
    {
        self.names.binary_search(name).ok()
    }

    /// The places of those of these names that a criterion has, without the names that they imply.
    pub fn set_of(&self, names: &Names) -> CriteriaSet
        ensures { result ≡ placed self.now names.now }
    {
        self.places(names.as_slice())
    }

    /// The closures of all the criteria, for many look-ups.
    pub fn closures(&self) -> Closures
        ensures { AreClosures self.now result }
    {
        let count = self.criteria.len();
        let mut closures = Closures::apart(count);
        let mut place = count;
        'places: while place > 0 {
            place -= 1;
            let implied = self.set_of(&self.criteria[place].implies);
            let reached = closures.joined(&implied);
            closures.lead_on(count, place, &reached);
        }
        closures
    }

    /// The built-in criteria and these, which must have room together. Refused: `NoMemory`.
    pub(crate) fn with_built_in(
        alloc: Global,
        criteria: Vec<Criterion>,
    ) -> Result<Definitions, Refusal>
        requires few { map.len (defined criteria.items) ≤ MOST_CRITERIA }
        ensures ok { IfOk result (λ d. d ≡ defined criteria.items) }
        ensures memory { IfErr result (λ e. e ≡ Refusal.NoMemory) }
    {
        let mut definitions = Definitions::new(alloc)?;
        'criteria: for criterion in criteria {
            definitions.set(criterion)?;
        }
        Ok(definitions)
    }

    /// Adds a criterion, or replaces the one of its name, which takes no memory. Refused: `NoMemory`; then the criteria
    /// are as they were.
    pub(crate) fn set(&mut self, criterion: Criterion) -> Result<(), Refusal>
        requires room { map.contains_key self.old criterion.name ≡ false → map.len self.old < MOST_CRITERIA }
        ensures ok { OnOk result (self.new ≡ map.insert self.old criterion.name criterion) }
        ensures held { map.contains_key self.old criterion.name ≡ true → result ≡ Ok tt }
        ensures memory { IfErr result (λ e. e ≡ Refusal.NoMemory) }
        ensures err { OnErr result (self.new ≡ self.old) }
    {
        match self.names.binary_search(&criterion.name) {
            Ok(place) => {
                self.criteria[place] = criterion;
                Ok(())
            }
            Err(place) => {
                let name = criterion.name.clone()?;
                put(&mut self.names, &mut self.criteria, place, name, criterion)
            }
        }
    }

    /// Removes the criterion of a name. Takes no memory.
    pub(crate) fn remove(&mut self, name: &Name)
        requires { map.contains_key self.old name.now ≡ true }
        ensures { self.new ≡ map.remove self.old name.now }
    {
        let Ok(place) = self.names.binary_search(name) else {
            return;
        };
        let _ = self.names.remove(place);
        let _ = self.criteria.remove(place);
    }

    // The places of those of these names that a criterion has.
    fn places(&self, names: &[Name]) -> CriteriaSet
        ensures { result ≡ placed self.now (set.from_list names.now) }
    {
        let mut places = CriteriaSet::empty();
        for name in names {
            if let Some(place) = self.place(name) {
                places = places.with(place);
            }
        }
        places
    }
}

impl Clone for Definitions {
    ghost is_clone = { λ a b. b ≡ a };

    fn clone(&self) -> Result<Definitions, AllocError> {
        Ok(Definitions {
            names: self.names.clone()?,
            criteria: self.criteria.clone()?,
        })
    }
}

impl PartialEq for Definitions {
    ghost use Rattle.std.specs.Cmp.{decided, partial_equiv_from_equiv};
    ghost use Rattle.std.specs.Prelude.{IsTrue, ◌↔◌, ◌≡◌};
    ghost use Rattle.vet_base.specs.Definitions.{criteria_eq};
    ghost use Rattle.vet_base.specs.DefinitionsLaws.{criteria_eq-Decides};

    ghost eq = { criteria_eq };

    ghost laws = { partial_equiv_from_equiv (decided criteria_eq criteria_eq-Decides) };

    fn eq(&self, other: &Definitions) -> bool
        ensures value { result ≡ criteria_eq self.now other.now }
        ensures same { IsTrue result ↔ (self.now ≡ other.now) }
    {
        self.criteria == other.criteria
    }
}

impl Eq for Definitions {
    ghost use Rattle.std.specs.Cmp.{decided};
    ghost use Rattle.vet_base.specs.Definitions.{criteria_eq};
    ghost use Rattle.vet_base.specs.DefinitionsLaws.{criteria_eq-Decides};

    ghost laws = { decided criteria_eq criteria_eq-Decides };
}

/// Two lists of criteria with different names, none of them built in, define the same exactly if they have the same
/// criteria, in any order.
pub fn same_definitions()
    ensures { SameDefinitions }
{}

// Lists the names of the built-in criteria, in order.
fn list_names(alloc: Global, names: &mut Vec<Name>) -> Result<(), Refusal>
    requires { names.old.items ≡ [] }
    ensures ok { OnOk result (names.new.items ≡ safe_to_deploy ∷ safe_to_run ∷ []) }
    ensures memory { IfErr result (λ e. e ≡ Refusal.NoMemory) }
{
    names.push(Name::parse(alloc, SAFE_TO_DEPLOY)?)?;
    names.push(Name::parse(alloc, SAFE_TO_RUN)?)?;
    Ok(())
}

// Lists the built-in criteria, in the order of their names.
fn list_built_in(alloc: Global, criteria: &mut Vec<Criterion>) -> Result<(), Refusal>
    requires { criteria.old.items ≡ [] }
    ensures ok { OnOk result (criteria.new.items ≡ deploy_criterion ∷ run_criterion ∷ []) }
    ensures memory { IfErr result (λ e. e ≡ Refusal.NoMemory) }
{
    let mut implied = Names::new(alloc);
    implied.insert(Name::parse(alloc, SAFE_TO_RUN)?)?;
    criteria.push(built_in(alloc, SAFE_TO_DEPLOY, implied)?)?;
    criteria.push(built_in(alloc, SAFE_TO_RUN, Names::new(alloc))?)?;
    Ok(())
}

// A criterion with a name and the names that it implies, without description and url.
fn built_in(alloc: Global, name: &str, implies: Names) -> Result<Criterion, Refusal>
    requires { is_name name.now ≡ true }
    ensures ok { IfOk result (λ c.
        c ≡ record { name = name.now; description = None; url = None; implies = implies }) }
    ensures memory { IfErr result (λ e. e ≡ Refusal.NoMemory) }
{
    Ok(Criterion {
        name: Name::parse(alloc, name)?,
        description: None,
        url: None,
        implies,
    })
}

// Inserts a criterion and its name at a place of their lists. If memory runs out, both lists are as they were.
fn put(
    names: &mut Vec<Name>,
    criteria: &mut Vec<Criterion>,
    place: usize,
    name: Name,
    criterion: Criterion,
) -> Result<(), Refusal>
    requires names { place ≤ vec_len names.old }
    requires criteria { place ≤ vec_len criteria.old }
    ensures names { OnOk result (names.new.items ≡ insert names.old.items place name) }
    ensures criteria { OnOk result (criteria.new.items ≡ insert criteria.old.items place criterion) }
    ensures memory { IfErr result (λ e. e ≡ Refusal.NoMemory) }
    ensures names_stay { OnErr result (names.new.items ≡ names.old.items) }
    ensures criteria_stay { OnErr result (criteria.new.items ≡ criteria.old.items) }
{
    criteria.insert(place, criterion)?;
    if names.insert(place, name).is_err() {
        let _ = criteria.remove(place);
        return Err(Refusal::NoMemory);
    }
    Ok(())
}
