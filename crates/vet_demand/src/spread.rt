//! Spreading criteria from node to node, with a worklist for each.
//!
//! **At the end, a criterion is at exactly the nodes where it starts and those to which the lists lead from there.**
//!
//! Criteria don't mix on their way, so each is spread by itself. The worklist begins with the nodes that have the
//! criterion, and takes them one after the other. Each node that one of them names and that lacks the criterion gets
//! it, and is appended to the list. So the list holds exactly the nodes that have the criterion, each once: each node,
//! and each edge, is looked at at most once for each criterion that it gets. When the list is at its end, all that its
//! nodes name is in it.
ghost use Rattle.std.specs.Prelude.{◌≡◌, ◌<◌, ◌≤◌, ◌++◌, ◌∷◌, [], IfOk, IfErr, cond, length, take};
ghost use Rattle.std.specs.List.{All};
ghost use Rattle.vet_base.specs.CriteriaSet.{has};
ghost use Rattle.vet_demand.specs.Spread.{AreBelow, AreSpread, AreStarts, IsSpread, Reaches, lists_in};

use std::alloc::Global;
use vet_base::criteria_set::CriteriaSet;
use vet_base::limits::MOST_CRITERIA;
use vet_base::refusal::Refusal;

/// Spreads each of the first `count` criteria: from each node that has it to the nodes that this one names, and so on.
/// Costs for each criterion a look at each node, and at each name of each node that gets it. Refused: `NoMemory`.
pub(crate) fn spread_all(
    alloc: Global,
    onward: &[Vec<usize>],
    count: usize,
    sets: &mut Vec<CriteriaSet>,
) -> Result<(), Refusal>
    requires count { count ≤ MOST_CRITERIA }
    requires lists { length onward.now ≡ length sets.old.items }
    requires below { AreBelow (length sets.old.items) (lists_in onward.now) }
    ensures ok { IfOk result (λ _. AreSpread count (lists_in onward.now) sets.old.items sets.new.items) }
    ensures memory { IfErr result (λ e. e ≡ Refusal.NoMemory) }
{
    'criteria: for place in 0..count {
        spread(alloc, onward, place, sets)?;
    }
    Ok(())
}

// Spreads one criterion.
fn spread(
    alloc: Global,
    onward: &[Vec<usize>],
    place: usize,
    sets: &mut Vec<CriteriaSet>,
) -> Result<(), Refusal>
    requires place { place < MOST_CRITERIA }
    requires lists { length onward.now ≡ length sets.old.items }
    requires below { AreBelow (length sets.old.items) (lists_in onward.now) }
    ensures ok { IfOk result (λ _. IsSpread place (lists_in onward.now) sets.old.items sets.new.items) }
    ensures memory { IfErr result (λ e. e ≡ Refusal.NoMemory) }
{
    let mut reached = starts(alloc, place, sets.as_slice())?;
    let mut next = 0;
    'nodes: while next < reached.len() {
        let from = reached[next];
        reach_all(onward[from].as_slice(), place, sets, &mut reached)?;
        next += 1;
    }
    Ok(())
}

// The nodes that have a criterion.
fn starts(alloc: Global, place: usize, sets: &[CriteriaSet]) -> Result<Vec<usize>, Refusal>
    ensures ok { IfOk result (λ reached. AreStarts place sets.now (length sets.now) reached.items) }
    ensures memory { IfErr result (λ e. e ≡ Refusal.NoMemory) }
{
    let mut reached = Vec::new(alloc);
    'nodes: for node in 0..sets.len() {
        start(node, place, &sets[node], &mut reached)?;
    }
    Ok(reached)
}

// Appends a node if it has a criterion.
fn start(
    node: usize,
    place: usize,
    set: &CriteriaSet,
    reached: &mut Vec<usize>,
) -> Result<(), Refusal>
    ensures ok { IfOk result (λ _.
        reached.new.items ≡ cond (has place set.now) (reached.old.items ++ node ∷ []) reached.old.items) }
    ensures memory { IfErr result (λ e. e ≡ Refusal.NoMemory) }
{
    if set.has(place) {
        reached.push(node)?;
    }
    Ok(())
}

// Gives a criterion to some nodes, and appends those that lacked it.
fn reach_all(
    nodes: &[usize],
    place: usize,
    sets: &mut Vec<CriteriaSet>,
    reached: &mut Vec<usize>,
) -> Result<(), Refusal>
    requires place { place < MOST_CRITERIA }
    requires below { All (λ v. v < length sets.old.items) nodes.now }
    ensures count { length sets.new.items ≡ length sets.old.items }
    ensures kept { IfOk result (λ _. take (length reached.old.items) reached.new.items ≡ reached.old.items) }
    ensures reaches { IfOk result (λ _.
        Reaches place nodes.now sets.old.items reached.old.items sets.new.items reached.new.items) }
    ensures memory { IfErr result (λ e. e ≡ Refusal.NoMemory) }
{
    'nodes: for node in nodes {
        reach(*node, place, sets, reached)?;
    }
    Ok(())
}

// Gives a criterion to a node and appends the node, unless it already has the criterion.
fn reach(
    node: usize,
    place: usize,
    sets: &mut Vec<CriteriaSet>,
    reached: &mut Vec<usize>,
) -> Result<(), Refusal>
    requires place { place < MOST_CRITERIA }
    requires below { node < length sets.old.items }
    ensures count { length sets.new.items ≡ length sets.old.items }
    ensures kept { IfOk result (λ _. take (length reached.old.items) reached.new.items ≡ reached.old.items) }
    ensures reaches { IfOk result (λ _.
        Reaches place (node ∷ []) sets.old.items reached.old.items sets.new.items reached.new.items) }
    ensures memory { IfErr result (λ e. e ≡ Refusal.NoMemory) }
{
    if sets[node].has(place) {
        return Ok(());
    }
    sets[node] = sets[node].with(place);
    reached.push(node)?;
    Ok(())
}
