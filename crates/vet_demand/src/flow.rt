//! The needs of a project's nodes, by their places.
//!
//! **The set of each node has exactly the criteria that are needed there.**
//!
//! Along an edge a node passes either a list, which its policy or a default names, or everything that it needs. A list
//! begins at the node where the edge ends, like the criteria that this node needs by itself. So each edge is looked at
//! once, and its list is closed once. Only the other edges remain to be followed (`spread`).
ghost use Rattle.std.specs.Prelude.{◌≡◌, ◌<◌, IfOk, IfErr, get_or, length, map, set};
ghost use Rattle.std.specs.FinSet as places;
ghost use Rattle.std.specs.List.{All};
ghost use Rattle.vet_demand.specs.Flow.{AreNeeds, ArePoliciesOf, Follows, IsFlow, own_places};
ghost use Rattle.vet_demand.specs.Project.{IsWithin};
ghost use Rattle.vet_demand.specs.Spread.{lists_in};
ghost use Rattle.vet_demand.specs.Terms.{AreTerms};

use crate::passed::{own_set, passed, policy_for, takes};
use crate::place_lists::{empty_lists, push_at};
use crate::policies::KeyedPolicy;
use crate::policy::Policy;
use crate::project::{Edge, Node, Project};
use crate::spread::spread_all;
use crate::terms::Terms;
use std::alloc::Global;
use vet_base::criteria_set::CriteriaSet;
use vet_base::keyed::Keyed;
use vet_base::refusal::Refusal;

// For each node, the criteria that begin there and the nodes to which it passes its needs.
#[derive(Drop)]
struct Flow {
    needs: Vec<CriteriaSet>,
    onward: Vec<Vec<usize>>,
}

/// The policies of some nodes. Refused: `NoMemory`.
pub(crate) fn policies_of<'p>(
    alloc: Global,
    policies: &'p Keyed<KeyedPolicy>,
    nodes: &[Node],
) -> Result<Vec<Option<&'p Policy>>, Refusal>
    ensures ok { IfOk result (λ found. ArePoliciesOf policies.now.items nodes.now found.items) }
    ensures memory { IfErr result (λ e. e ≡ Refusal.NoMemory) }
{
    let mut found = Vec::new(alloc);
    'nodes: for node in nodes {
        found.push(policy_for(policies, node))?;
    }
    Ok(found)
}

/// The criteria of the table that each node of a project needs, given the policies of the nodes. Costs a look at each
/// node and each edge, and one more for each criterion that the node, or the node where the edge starts, gets. Refused:
/// `NoMemory`.
pub(crate) fn needs_of(
    alloc: Global,
    terms: &Terms<'_>,
    project: &Project,
    found: &[Option<&Policy>],
) -> Result<Vec<CriteriaSet>, Refusal>
    requires terms { AreTerms terms.now }
    requires found { ArePoliciesOf terms.now.policies.now.items project.now.nodes found.now }
    ensures ok { IfOk result (λ needs.
        AreNeeds terms.now.policies.now.items terms.now.criteria.now project.now needs.items) }
    ensures memory { IfErr result (λ e. e ≡ Refusal.NoMemory) }
{
    let mut flow = flow_of(alloc, terms, project.nodes(), project.edges(), found)?;
    spread_all(
        alloc,
        flow.onward.as_slice(),
        terms.names.len(),
        &mut flow.needs,
    )?;
    Ok(flow.needs)
}

// The criteria that begin at each node, and the nodes to which each passes its needs.
fn flow_of(
    alloc: Global,
    terms: &Terms<'_>,
    nodes: &[Node],
    edges: &[Edge],
    found: &[Option<&Policy>],
) -> Result<Flow, Refusal>
    requires terms { AreTerms terms.now }
    requires within { All (IsWithin (length nodes.now)) edges.now }
    requires found { ArePoliciesOf terms.now.policies.now.items nodes.now found.now }
    ensures ok { IfOk result (λ flow. IsFlow terms.now.policies.now.items terms.now.criteria.now nodes.now edges.now
        flow.needs.items (lists_in flow.onward.items)) }
    ensures memory { IfErr result (λ e. e ≡ Refusal.NoMemory) }
{
    let mut flow = Flow {
        needs: own_needs(alloc, terms, nodes, found)?,
        onward: empty_lists(alloc, nodes.len())?,
    };
    'edges: for edge in edges {
        follow(terms, nodes, found, edge, &mut flow)?;
    }
    Ok(flow)
}

// The criteria that each node needs by itself.
fn own_needs(
    alloc: Global,
    terms: &Terms<'_>,
    nodes: &[Node],
    found: &[Option<&Policy>],
) -> Result<Vec<CriteriaSet>, Refusal>
    requires terms { AreTerms terms.now }
    requires found { ArePoliciesOf terms.now.policies.now.items nodes.now found.now }
    ensures ok { IfOk result (λ needs.
        needs.items ≡ map (own_places terms.now.policies.now.items terms.now.criteria.now) nodes.now) }
    ensures memory { IfErr result (λ e. e ≡ Refusal.NoMemory) }
{
    let mut needs = Vec::new(alloc);
    'nodes: for place in 0..nodes.len() {
        needs.push(own_set(terms, nodes[place].party, found[place]))?;
    }
    Ok(needs)
}

// Adds what one edge passes.
fn follow(
    terms: &Terms<'_>,
    nodes: &[Node],
    found: &[Option<&Policy>],
    edge: &Edge,
    flow: &mut Flow,
) -> Result<(), Refusal>
    requires terms { AreTerms terms.now }
    requires within { IsWithin (length nodes.now) edge.now }
    requires found { ArePoliciesOf terms.now.policies.now.items nodes.now found.now }
    requires count { length flow.old.needs.items ≡ length nodes.now }
    requires lists { length flow.old.onward.items ≡ length nodes.now }
    ensures ok { IfOk result (λ _. Follows terms.now.policies.now.items terms.now.criteria.now nodes.now edge.now
        flow.old.needs.items (lists_in flow.old.onward.items) flow.new.needs.items (lists_in flow.new.onward.items)) }
    ensures memory { IfErr result (λ e. e ≡ Refusal.NoMemory) }
{
    let to = &nodes[edge.to];
    if !takes(to.party, found[edge.to]) {
        return Ok(());
    }
    let from = &nodes[edge.from];
    match passed(terms, edge.kind, from.party, found[edge.from], &to.package) {
        Some(set) => {
            add_at(&mut flow.needs, edge.to, &set);
            Ok(())
        }
        None => {
            push_at(&mut flow.onward, edge.from, edge.to)?;
            Ok(())
        }
    }
}

// Adds criteria to one of some sets.
fn add_at(sets: &mut Vec<CriteriaSet>, at: usize, more: &CriteriaSet)
    requires { at < length sets.old.items }
    ensures { sets.new.items ≡ set sets.old.items at (places.union (get_or sets.old.items at places.empty) more.now) }
{
    sets[at] = sets[at].union(more);
}
