//! The criteria that a node needs by itself, and those that an edge passes.
ghost use Rattle.std.specs.Prelude.{◌≡◌, option_map};
ghost use Rattle.std.specs.Option.{option_copied};
ghost use Rattle.vet_demand.specs.DemandOf.{is_audited};
ghost use Rattle.vet_demand.specs.Passed.{dev_criteria, dev_passed, listed_criteria, own_criteria, passed_criteria};
ghost use Rattle.vet_demand.specs.Passed.{policy_for, settled_criteria, takes};
ghost use Rattle.vet_demand.specs.Terms.{AreTerms, closed_places};

use crate::policies::{KeyedPolicy, policy_of_parts};
use crate::policy::Policy;
use crate::project::{EdgeKind, Node, Party};
use crate::terms::Terms;
use vet_base::criteria_set::CriteriaSet;
use vet_base::keyed::Keyed;
use vet_base::name::PackageName;
use vet_base::names::Names;

/// The policy of a node: the one of its version if there is one, otherwise the one of its package. It is used whole.
/// Takes no memory, and a time of log n.
pub(crate) fn policy_for<'p>(policies: &'p Keyed<KeyedPolicy>, node: &Node) -> Option<&'p Policy>
    ensures { option_copied result ≡ policy_for policies.now.items node.now }
{
    if let Some(policy) = policy_of_parts(policies, &node.package, Some(&node.version)) {
        return Some(policy);
    }
    policy_of_parts(policies, &node.package, None)
}

/// Whether a node's needs are demanded: if it is third-party, or if its policy says that it is audited.
pub(crate) fn is_audited(party: Party, policy: Option<&Policy>) -> bool
    ensures { result ≡ is_audited party (option_copied policy.entry) }
{
    match party {
        Party::Root | Party::First => match policy {
            Some(policy) => match policy.audit_as_crates_io {
                Some(says) => says,
                None => false,
            },
            None => false,
        },
        Party::Third => true,
    }
}

/// Whether a node needs what its dependants pass.
pub(crate) fn takes(party: Party, policy: Option<&Policy>) -> bool
    ensures { result ≡ takes party (option_copied policy.entry) }
{
    settled_criteria(party, policy).is_none()
}

/// The criteria that a node needs by itself.
#[tactic(auto, using(crate::proofs::Closing::none_closed))]
pub(crate) fn own_set(terms: &Terms<'_>, party: Party, policy: Option<&Policy>) -> CriteriaSet
    requires { AreTerms terms.now }
    ensures { result ≡ closed_places terms.now.criteria.now (own_criteria party (option_copied policy.entry)) }
{
    match settled_criteria(party, policy) {
        Some(names) => terms.closed(names),
        None => match party {
            Party::Root => terms.deploy,
            Party::First | Party::Third => CriteriaSet::empty(),
        },
    }
}

/// The criteria that an edge to a name passes. `None` if it passes whatever the node where it starts needs.
pub(crate) fn passed(
    terms: &Terms<'_>,
    kind: EdgeKind,
    party: Party,
    policy: Option<&Policy>,
    name: &PackageName,
) -> Option<CriteriaSet>
    requires { AreTerms terms.now }
    ensures { result ≡ option_map (closed_places terms.now.criteria.now)
        (passed_criteria kind party (option_copied policy.entry) name.now) }
{
    match kind {
        EdgeKind::Normal | EdgeKind::Build => match listed_criteria(policy, name) {
            Some(names) => Some(terms.closed(names)),
            None => None,
        },
        EdgeKind::Dev => Some(dev_passed(terms, party, policy, name)),
    }
}

// All that a first-party node needs, however it is reached, if its policy has `criteria`.
fn settled_criteria<'p>(party: Party, policy: Option<&'p Policy>) -> Option<&'p Names>
    ensures { option_copied result ≡ settled_criteria party (option_copied policy.entry) }
{
    match party {
        Party::Root | Party::First => match policy {
            Some(policy) => policy.criteria.as_ref(),
            None => None,
        },
        Party::Third => None,
    }
}

// The criteria that a policy lists for dependencies of a name.
fn listed_criteria<'p>(policy: Option<&'p Policy>, name: &PackageName) -> Option<&'p Names>
    ensures { option_copied result ≡ listed_criteria (option_copied policy.entry) name.now }
{
    match policy {
        Some(policy) => policy.dependency_criteria.get(name),
        None => None,
    }
}

// The criteria that a policy gives for dev edges; `safe-to-run` if it gives none.
fn dev_criteria(terms: &Terms<'_>, policy: Option<&Policy>) -> CriteriaSet
    requires { AreTerms terms.now }
    ensures { result ≡ closed_places terms.now.criteria.now (dev_criteria (option_copied policy.entry)) }
{
    match policy {
        Some(policy) => match &policy.dev_criteria {
            Some(names) => terms.closed(names),
            None => terms.run,
        },
        None => terms.run,
    }
}

// The criteria that are passed along a dev edge.
#[tactic(auto, using(crate::proofs::Closing::none_closed))]
fn dev_passed(
    terms: &Terms<'_>,
    party: Party,
    policy: Option<&Policy>,
    name: &PackageName,
) -> CriteriaSet
    requires { AreTerms terms.now }
    ensures { result ≡ closed_places terms.now.criteria.now (dev_passed party (option_copied policy.entry) name.now) }
{
    if let Party::Third = party {
        return CriteriaSet::empty();
    }
    match listed_criteria(policy, name) {
        Some(names) => terms.closed(names),
        None => dev_criteria(terms, policy),
    }
}
