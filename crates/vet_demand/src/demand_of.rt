//! The demand of projects, by the policies and criteria that are held.
//!
//! **The demand holds exactly the pairs that are needed at an audited node of some project, and the needs are the
//! least that policies and edges ask for.**
//!
//! Each criterion is needed separately. It begins at some nodes, goes along some edges, and is needed exactly at the
//! nodes that it reaches. So the least needs are the nodes reached, whatever cycles the dependencies have.
//!
//! The starts (`passed`). A first-party node whose policy has criteria begins with the closure of these, and takes
//! nothing else. Any other root begins with the closure of `safe-to-deploy`. An edge passes either a list, which a
//! policy or a default names, or everything that its node needs. A list is closed by itself and doesn't depend on what
//! else is needed. So it begins at the node where the edge ends, and the edge needs no further look (`flow`).
//!
//! The edges. Those that remain pass what their node needs. Criteria don't mix on their way, so each is spread by
//! itself, by a worklist that holds a node at most once (`spread`). When the list is at its end, each node to which it
//! leads has the criterion, so the needs are complete. And each node in it was put there by an earlier one, back to a
//! start, so the needs are the least.
//!
//! The demand (`audited`). A node's needs are demanded if it is third-party, or if its policy says that it is audited
//! as at crates.io. The nodes of a project are in order. The lists of two halves of the projects are merged, so a node
//! of many projects occurs once, with what it needs in any of them. Pairs are made of it at the end, in the order of
//! reports.
//!
//! The cost. Each edge is looked at once, and once more for each criterion that the node where it starts gets. A node
//! of one of n projects is moved log n times.
ghost use Rattle.std.specs.Prelude.{◌≡◌, ◌↔◌, ◌++◌, ◌∷◌, [], IfOk, IfErr, cond, length};
ghost use Rattle.std.specs.List.{Contains};
ghost use Rattle.vet_base.specs.Names.{IsRising};
ghost use Rattle.vet_demand.specs.Audited.{AreInAuditedOrder, AreParallel, IsAsked, audited_list};
ghost use Rattle.vet_demand.specs.Collected.{AddsInOrder};
ghost use Rattle.vet_demand.specs.DemandOf.{IsLeastDemand, PoliciesAreKnown, demand_of, pair_of};
ghost use Rattle.vet_demand.specs.Pair.{IsInOrder};
ghost use Rattle.vet_demand.specs.declared.pair.Pair as demanded;

use crate::audited::{AuditedNodes, audited_in};
use crate::demand::Demand;
use crate::pair::Pair;
use crate::policies::KeyedPolicy;
use crate::project::{NamedProject, Node};
use crate::terms::Terms;
use std::alloc::Global;
use vet_base::criteria_set::CriteriaSet;
use vet_base::criteria_table::CriteriaTable;
use vet_base::keyed::Keyed;
use vet_base::name::Name;
use vet_base::refusal::Refusal;

/// The least demand that these policies ask of the projects, by the criteria of this table. The cost is given at the
/// head of this module. Refused: `NoMemory`.
pub fn demand(
    alloc: Global,
    projects: &[NamedProject],
    policies: &Keyed<KeyedPolicy>,
    criteria: &CriteriaTable,
) -> Result<Demand, Refusal>
    requires known { PoliciesAreKnown criteria.now policies.now.items }
    ensures least { IfOk result (λ d. IsLeastDemand projects.now policies.now.items criteria.now d) }
    ensures value { IfOk result (λ d. d ≡ demand_of projects.now policies.now.items criteria.now) }
    ensures memory { IfErr result (λ e. e ≡ Refusal.NoMemory) }
{
    let terms = Terms::of(alloc, policies, criteria)?;
    let audited = audited_in(alloc, &terms, projects)?;
    let pairs = pairs_of(alloc, &audited, terms.names)?;
    Ok(Demand::in_order(pairs))
}

// The pairs of some audited nodes, in order.
fn pairs_of(alloc: Global, audited: &AuditedNodes<'_>, names: &[Name]) -> Result<Vec<Pair>, Refusal>
    requires names { IsRising names.now }
    requires parallel { AreParallel audited.now }
    requires nodes { AreInAuditedOrder (audited_list audited.now) }
    ensures in_order { IfOk result (λ pairs. IsInOrder pairs.items) }
    ensures same { IfOk result (λ pairs. (q : demanded.Pair)
        → Contains pairs.items q ↔ IsAsked names.now (audited_list audited.now) q) }
    ensures memory { IfErr result (λ e. e ≡ Refusal.NoMemory) }
{
    let mut pairs = Vec::new(alloc);
    'nodes: for place in 0..audited.nodes.len() {
        add_node(
            audited.nodes[place],
            &audited.needs[place],
            names,
            &mut pairs,
        )?;
    }
    Ok(pairs)
}

// Adds the pairs of a node with the criteria that it needs, in the order of names.
fn add_node(
    node: &Node,
    needs: &CriteriaSet,
    names: &[Name],
    pairs: &mut Vec<Pair>,
) -> Result<(), Refusal>
    requires { IsRising names.now }
    ensures ok { IfOk result (λ _.
        AddsInOrder node.now names.now needs.now (length names.now) pairs.old.items pairs.new.items) }
    ensures memory { IfErr result (λ e. e ≡ Refusal.NoMemory) }
{
    'names: for place in 0..names.len() {
        add_pair(node, &names[place], needs.has(place), pairs)?;
    }
    Ok(())
}

// Adds the pair of a node and a criterion, if it is needed.
fn add_pair(
    node: &Node,
    criterion: &Name,
    needed: bool,
    pairs: &mut Vec<Pair>,
) -> Result<(), Refusal>
    ensures ok { IfOk result (λ _.
        pairs.new.items ≡ cond needed (pairs.old.items ++ pair_of node.now criterion.now ∷ []) pairs.old.items) }
    ensures memory { IfErr result (λ e. e ≡ Refusal.NoMemory) }
{
    if !needed {
        return Ok(());
    }
    pairs.push(Pair {
        package: node.package.clone()?,
        version: node.version.clone()?,
        criterion: criterion.clone()?,
    })?;
    Ok(())
}
