//! The criteria that policies name.
ghost use Rattle.std.specs.Prelude.{◌≡◌, ◌↔◌, IsTrue};
ghost use Rattle.std.specs.FinSet as set;
ghost use Rattle.std.specs.List.{list_any};
ghost use Rattle.std.specs.Option.{option_copied};
ghost use Rattle.vet_base.specs.Criteria.{least_unknown};
ghost use Rattle.vet_demand.specs.DemandOf.{PoliciesAreKnown};
ghost use Rattle.vet_demand.specs.PolicyNames.{names_in, names_listed, names_passed, policy_names};

use crate::dependency_criteria::DependencyItem;
use crate::policies::KeyedPolicy;
use crate::policy::Policy;
use vet_base::criteria_table::CriteriaTable;
use vet_base::defined::lesser;
use vet_base::name::Name;
use vet_base::names::Names;

/// The least criterion that a policy names in any of its lists and that a table lacks, if there is one. Takes no
/// memory. Costs a look at each name of each list, up to the first that the table lacks.
pub fn least_unknown_of<'p>(policy: &'p Policy, criteria: &CriteriaTable) -> Option<&'p Name>
    ensures { option_copied result ≡ least_unknown criteria.now (names_in policy.now) }
{
    let own = least_listed(&policy.criteria, criteria);
    let dev = least_listed(&policy.dev_criteria, criteria);
    let passed = least_passed(policy.dependency_criteria.items(), criteria);
    lesser(lesser(own, dev), passed)
}

/// Whether any of some policies names a criterion. Takes no memory. Costs a search in each of their lists, up to the
/// first that has it.
pub fn names_criterion(policies: &[KeyedPolicy], name: &Name) -> bool
    ensures { result ≡ list_any (policy_names name.now) policies.now }
{
    policies.iter().any(|held| names(&held.policy, name))
}

/// Whether a table has every criterion that some policies name. Takes no memory. Costs a look at each name of each
/// list, up to the first that the table lacks.
pub fn are_known(policies: &[KeyedPolicy], criteria: &CriteriaTable) -> bool
    ensures { IsTrue result ↔ PoliciesAreKnown criteria.now policies.now }
{
    policies
        .iter()
        .all(|held| least_unknown_of(&held.policy, criteria).is_none())
}

// The least name of a list that a table lacks. An absent list has no names.
fn least_listed<'p>(names: &'p Option<Names>, criteria: &CriteriaTable) -> Option<&'p Name>
    ensures { option_copied result ≡ least_unknown criteria.now (names_listed names.now) }
{
    match names {
        Some(names) => criteria.least_unknown(names),
        None => None,
    }
}

// The least name in the lists for dependencies that a table lacks.
fn least_passed<'p>(items: &'p [DependencyItem], criteria: &CriteriaTable) -> Option<&'p Name>
    ensures { option_copied result ≡ least_unknown criteria.now (names_passed items.now) }
{
    let mut least = None;
    'items: for item in items {
        least = lesser(least, criteria.least_unknown(&item.criteria));
    }
    least
}

// Whether a policy names a criterion.
fn names(policy: &Policy, name: &Name) -> bool
    ensures { result ≡ set.contains (names_in policy.now) name.now }
{
    if is_listed(&policy.criteria, name) {
        return true;
    }
    if is_listed(&policy.dev_criteria, name) {
        return true;
    }
    is_passed(policy.dependency_criteria.items(), name)
}

// Whether a list is present and has a name.
fn is_listed(names: &Option<Names>, name: &Name) -> bool
    ensures { result ≡ set.contains (names_listed names.now) name.now }
{
    match names {
        Some(names) => names.contains(name),
        None => false,
    }
}

// Whether one of the lists for dependencies has a name.
fn is_passed(items: &[DependencyItem], name: &Name) -> bool
    ensures { result ≡ list_any (λ i. set.contains i.criteria name.now) items.now }
{
    items.iter().any(|item| item.criteria.contains(name))
}
