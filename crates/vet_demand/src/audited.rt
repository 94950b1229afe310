//! The audited nodes of projects, with their needs.
//!
//! **They are in one list, each once, in the order of nodes, and ask for exactly the pairs that the projects demand.**
//!
//! A project has its nodes in order. The lists of two halves of the projects are merged into one, so a node is moved as
//! many times as the number of projects can be halved. The merge unites the needs that a node has in either half,
//! before pairs are made of them.
ghost use Rattle.std.specs.Prelude.{◌≡◌, ◌⊎◌, ◌<◌, ◌+◌, ◌^◌, ◌++◌, ◌∷◌, [], IfOk, IfErr, cond, length};
ghost use Rattle.std.specs.Option.{option_copied};
ghost use Rattle.vet_demand.specs.Audited.{AreAudited, AreAuditedIn, AreHeads, AreInAuditedOrder, AreMerged};
ghost use Rattle.vet_demand.specs.Audited.{AreParallel, IsAfter, PutsHead, audited_list};
ghost use Rattle.vet_demand.specs.DemandOf.{PoliciesAreKnown, is_audited};
ghost use Rattle.vet_demand.specs.Terms.{AreTerms};

use crate::flow::{needs_of, policies_of};
use crate::passed::is_audited;
use crate::policy::Policy;
use crate::project::{NamedProject, Node, Project};
use crate::terms::Terms;
use std::alloc::Global;
use std::cmp::Ordering;
use vet_base::criteria_set::CriteriaSet;
use vet_base::refusal::Refusal;

/// Audited nodes, and in a second list the needs of each.
#[derive(Drop)]
pub(crate) struct AuditedNodes<'n> {
    pub(crate) nodes: Vec<&'n Node>,
    pub(crate) needs: Vec<CriteriaSet>,
}

// The numbers of nodes that are already merged from each of two lists.
#[derive(Clone, Copy)]
struct Places {
    first: usize,
    second: usize,
}

impl<'n> AuditedNodes<'n> {
    // No nodes.
    fn new(alloc: Global) -> AuditedNodes<'n>
        ensures parallel { AreParallel result }
        ensures none { audited_list result ≡ [] }
    {
        AuditedNodes {
            nodes: Vec::new(alloc),
            needs: Vec::new(alloc),
        }
    }

    // Appends a node with its needs.
    fn push(&mut self, node: &'n Node, needs: CriteriaSet) -> Result<(), Refusal>
        requires { AreParallel self.old }
        ensures parallel { IfOk result (λ _. AreParallel self.new) }
        ensures pushed { IfOk result (λ _.
            audited_list self.new ≡ audited_list self.old ++ (record { node = node.now; needs = needs }) ∷ []) }
        ensures memory { IfErr result (λ e. e ≡ Refusal.NoMemory) }
    {
        self.nodes.push(node)?;
        self.needs.push(needs)?;
        Ok(())
    }
}

impl Places {
    // The places after these, once the nodes here, which compare in this order, are merged.
    fn after(self, order: Ordering) -> Places
        requires { (self.first + 1 < 2 ^ 64) × (self.second + 1 < 2 ^ 64) }
        ensures { IsAfter self.first self.second result.first result.second order }
    {
        match order {
            Ordering::Less => Places {
                first: self.first + 1,
                second: self.second,
            },
            Ordering::Equal => Places {
                first: self.first + 1,
                second: self.second + 1,
            },
            Ordering::Greater => Places {
                first: self.first,
                second: self.second + 1,
            },
        }
    }
}

/// The audited nodes of some projects. Costs the computation of each project's needs, and a merge of their nodes for
/// each time that the number of projects can be halved. Refused: `NoMemory`.
pub(crate) fn audited_in<'n>(
    alloc: Global,
    terms: &Terms<'_>,
    projects: &'n [NamedProject],
) -> Result<AuditedNodes<'n>, Refusal>
    requires terms { AreTerms terms.now }
    requires known { PoliciesAreKnown terms.now.criteria.now terms.now.policies.now.items }
    ensures parallel { IfOk result AreParallel }
    ensures ok { IfOk result (λ audited.
        AreAudited terms.now.policies.now.items terms.now.criteria.now projects.now (audited_list audited)) }
    ensures memory { IfErr result (λ e. e ≡ Refusal.NoMemory) }
{
    if projects.is_empty() {
        return Ok(AuditedNodes::new(alloc));
    }
    if projects.len() == 1 {
        return audited_of(alloc, terms, &projects[0].project);
    }
    let (front, back) = projects.split_at(projects.len() / 2);
    let first = audited_in(alloc, terms, front)?;
    let second = audited_in(alloc, terms, back)?;
    merge(alloc, &first, &second)
}

// The audited nodes of a project.
fn audited_of<'n>(
    alloc: Global,
    terms: &Terms<'_>,
    project: &'n Project,
) -> Result<AuditedNodes<'n>, Refusal>
    requires terms { AreTerms terms.now }
    requires known { PoliciesAreKnown terms.now.criteria.now terms.now.policies.now.items }
    ensures parallel { IfOk result AreParallel }
    ensures ok { IfOk result (λ audited.
        AreAuditedIn terms.now.policies.now.items terms.now.criteria.now project.now (audited_list audited)) }
    ensures memory { IfErr result (λ e. e ≡ Refusal.NoMemory) }
{
    let nodes = project.nodes();
    let found = policies_of(alloc, terms.policies, nodes)?;
    let needs = needs_of(alloc, terms, project, found.as_slice())?;
    let mut audited = AuditedNodes::new(alloc);
    'nodes: for place in 0..nodes.len() {
        put_audited(&nodes[place], found[place], &needs[place], &mut audited)?;
    }
    Ok(audited)
}

// Appends a node if it is audited.
fn put_audited<'n>(
    node: &'n Node,
    policy: Option<&Policy>,
    needs: &CriteriaSet,
    audited: &mut AuditedNodes<'n>,
) -> Result<(), Refusal>
    requires { AreParallel audited.old }
    ensures parallel { IfOk result (λ _. AreParallel audited.new) }
    ensures ok { IfOk result (λ _. audited_list audited.new
        ≡ cond (is_audited node.now.party (option_copied policy.entry))
        (audited_list audited.old ++ (record { node = node.now; needs = needs.now }) ∷ []) (audited_list audited.old)) }
    ensures memory { IfErr result (λ e. e ≡ Refusal.NoMemory) }
{
    if !is_audited(node.party, policy) {
        return Ok(());
    }
    audited.push(node, *needs)
}

// Merges two lists into one.
fn merge<'n>(
    alloc: Global,
    first: &AuditedNodes<'n>,
    second: &AuditedNodes<'n>,
) -> Result<AuditedNodes<'n>, Refusal>
    requires first { AreParallel first.now }
    requires second { AreParallel second.now }
    requires first_in_order { AreInAuditedOrder (audited_list first.now) }
    requires second_in_order { AreInAuditedOrder (audited_list second.now) }
    ensures parallel { IfOk result AreParallel }
    ensures ok { IfOk result (λ all. AreMerged (audited_list first.now) (audited_list second.now) (audited_list all)) }
    ensures memory { IfErr result (λ e. e ≡ Refusal.NoMemory) }
{
    let mut all = AuditedNodes::new(alloc);
    let mut at = Places {
        first: 0,
        second: 0,
    };
    let total = first.nodes.len() + second.nodes.len();
    'nodes: while at.first + at.second < total {
        let order = heads_cmp(first, second, at);
        put_head(first, second, at, order, &mut all)?;
        at = at.after(order);
    }
    Ok(all)
}

// Compares the next nodes of two lists. If one list is at its end, the node of the other comes first.
fn heads_cmp(first: &AuditedNodes<'_>, second: &AuditedNodes<'_>, at: Places) -> Ordering
    requires first { AreParallel first.now }
    requires second { AreParallel second.now }
    requires left { (at.first < length first.now.nodes.items) ⊎ (at.second < length second.now.nodes.items) }
    ensures { AreHeads (audited_list first.now) (audited_list second.now) at.first at.second result }
{
    if second.nodes.len() <= at.second {
        return Ordering::Less;
    }
    if first.nodes.len() <= at.first {
        return Ordering::Greater;
    }
    first.nodes[at.first].cmp_place(second.nodes[at.second])
}

// Appends the lesser of the next nodes of two lists. If they tie, they become one node with the needs of both.
fn put_head<'n>(
    first: &AuditedNodes<'n>,
    second: &AuditedNodes<'n>,
    at: Places,
    order: Ordering,
    all: &mut AuditedNodes<'n>,
) -> Result<(), Refusal>
    requires first { AreParallel first.now }
    requires second { AreParallel second.now }
    requires all { AreParallel all.old }
    requires heads { AreHeads (audited_list first.now) (audited_list second.now) at.first at.second order }
    ensures parallel { IfOk result (λ _. AreParallel all.new) }
    ensures ok { IfOk result (λ _.
        PutsHead (audited_list first.now) (audited_list second.now) at.first at.second
        (audited_list all.old) (audited_list all.new) order) }
    ensures memory { IfErr result (λ e. e ≡ Refusal.NoMemory) }
{
    match order {
        Ordering::Less => all.push(first.nodes[at.first], first.needs[at.first]),
        Ordering::Equal => {
            let needs = first.needs[at.first].union(&second.needs[at.second]);
            all.push(first.nodes[at.first], needs)
        }
        Ordering::Greater => all.push(second.nodes[at.second], second.needs[at.second]),
    }
}
