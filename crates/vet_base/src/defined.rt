//! The criteria that those of a file define, together with the built-in ones.
ghost use Rattle.std.specs.Prelude.{◌≡◌, ℕ, List, IfOk, IfErr, true};
ghost use Rattle.std.specs.FinSet as set;
ghost use Rattle.std.specs.FinMap as map;
ghost use Rattle.std.specs.Option.{option_copied};
ghost use Rattle.vet_base.specs.Criteria.{safe_to_deploy, safe_to_run};
ghost use Rattle.vet_base.specs.Defined.{defined, least_undefined, lesser, table_told};
ghost use Rattle.std.specs.List.{list_any};
ghost use Rattle.vet_base.specs.CriteriaChanges.{is_built_in};
ghost use Rattle.vet_base.specs.Gives.{Gives};
ghost use Rattle.vet_base.specs.Name.{is_name};

use crate::criteria_table::{CriteriaTable, is_built_in};
use crate::criterion::Criterion;
use crate::definitions::{SAFE_TO_DEPLOY, SAFE_TO_RUN};
use crate::limits::MOST_CRITERIA;
use crate::name::Name;
use crate::names::Names;
use crate::refusal::Refusal;
use std::alloc::{AllocError, Global};

impl CriteriaTable {
    /// The names of some criteria and of the built-in ones.
    pub fn names_with(alloc: Global, criteria: &[Criterion]) -> Result<Names, AllocError>
        ensures names { IfOk result (λ known. (n : List ℕ)
            → set.contains known n ≡ map.contains_key (defined criteria.now) n) }
        ensures len { IfOk result (λ known. set.len known ≡ map.len (defined criteria.now)) }
    {
        let mut known = built_in_names(alloc)?;
        for criterion in criteria {
            known.insert(criterion.name.clone()?)?;
        }
        Ok(known)
    }

    /// The least name that one of some criteria implies and that is not among the known ones.
    pub fn least_undefined<'a>(criteria: &'a [Criterion], known: &Names) -> Option<&'a Name>
        ensures { option_copied result ≡ least_undefined (set.contains known.now) criteria.now }
    {
        let mut least = None;
        for criterion in criteria {
            least = lesser(least, criterion.implies.least_outside(known));
        }
        least
    }
}

// Checks that some criteria may be defined with the built-in ones. Refused as `CriteriaTable::of` is.
pub(crate) fn check_defined(alloc: Global, criteria: &[Criterion]) -> Result<(), Refusal>
    ensures { Gives (λ _. defined criteria.now) (table_told criteria.now) result }
{
    let known = CriteriaTable::names_with(alloc, criteria)?;
    if known.len() > MOST_CRITERIA {
        return Err(Refusal::TooManyCriteria);
    }
    if let Some(name) = CriteriaTable::least_undefined(criteria, &known) {
        return Err(Refusal::UnknownCriterion(name.clone()?));
    }
    if has_built_in(criteria) {
        return Err(Refusal::BuiltInCriterion);
    }
    Ok(())
}

// Whether one of some criteria has a built-in name.
fn has_built_in(criteria: &[Criterion]) -> bool
    ensures { result ≡ list_any (λ c. is_built_in c.name) criteria.now }
{
    criteria
        .iter()
        .any(|criterion| is_built_in(&criterion.name))
}

// The names of the built-in criteria.
fn built_in_names(alloc: Global) -> Result<Names, AllocError>
    ensures { IfOk result (λ names. names ≡ set.insert (set.insert set.empty safe_to_run) safe_to_deploy) }
{
    let mut names = Names::new(alloc);
    names.insert(name(alloc, SAFE_TO_RUN)?)?;
    names.insert(name(alloc, SAFE_TO_DEPLOY)?)?;
    Ok(names)
}

// Reads a name.
fn name(alloc: Global, text: &str) -> Result<Name, AllocError>
    requires { is_name text.now ≡ true }
    ensures { IfOk result (λ name. name ≡ text.now) }
{
    match Name::read(alloc, text)? {
        Some(name) => Ok(name),
        None => Err(AllocError),
    }
}

/// The lesser of two names. If one is absent it is the other, and if both are it is `None`.
pub fn lesser<'a>(first: Option<&'a Name>, second: Option<&'a Name>) -> Option<&'a Name>
    ensures { option_copied result ≡ lesser (option_copied first.entry) (option_copied second.entry) }
{
    match (first, second) {
        (None, _) => second,
        (Some(_), None) => first,
        (Some(name), Some(other)) => {
            if other.cmp(name).is_lt() {
                return second;
            }
            first
        }
    }
}
