//! The steps of one package, with an index by the versions at which they start.
ghost use Rattle.std.specs.Prelude.{◌≡◌, ◌<◌, ◌+◌, IfOk, IfErr, length, unwrap_or};
ghost use Rattle.std.specs.BTreeMap.{get};
ghost use Rattle.vet_base.specs.VersionOrder.{version_cmp};
ghost use Rattle.vet_graph.specs.Links.{AreFiled, AreHeads, IsLinked, Knows, lists_in, origin_at};
ghost use Rattle.vet_graph.specs.Search.{version_at};

use crate::guarded::GuardedStep;
use std::alloc::Global;
use std::collections::BTreeMap;
use std::marker::Model;
use vet_base::refusal::Refusal;
use vet_base::version::VetVersion;
use vet_demand::place_lists::{empty_lists, push_at};

// The first step to each version, and the steps that start there, all by the places of steps.
pub(crate) struct Links {
    // For each step, its head: the first step that leads to the same version.
    pub(crate) heads: Vec<usize>,
    // The steps from nothing.
    pub(crate) first: Vec<usize>,
    // For each head, the steps that start at its version.
    pub(crate) after: Vec<Vec<usize>>,
}

impl Drop for Links {
    fn drop(self) {
        let Links {
            heads: _,
            first: _,
            after: _,
        } = self;
    }
}

/// The steps of one package, with an index by the versions at which they start.
pub struct LinkedSteps {
    steps: Vec<GuardedStep>,
    links: Links,
}

impl Model for LinkedSteps {
    ghost use Rattle.std.specs.Prelude.{List};
    ghost use Rattle.vet_graph.specs.declared.guarded.GuardedStep.{GuardedStep};
    ghost use Rattle.vet_graph.specs.Links.{IsLinked};
    ghost use Rattle.std.specs.Coded.{coded_list};
    ghost use Rattle.vet_graph.specs.contracts.guarded.GuardedStep as guarded;

    ghost Value = { List GuardedStep };

    ghost coded = { coded_list guarded.the_row.coded };

    ghost view = { λ l. l.steps.items };

    ghost invariant = { λ l. IsLinked l.steps.items l.links };
}

impl Drop for LinkedSteps {
    fn drop(self) {
        let LinkedSteps { steps: _, links: _ } = self;
    }
}

impl LinkedSteps {
    /// Some steps, with their index. Costs two look-ups among all versions for each step: one of the version to which
    /// it leads, and one of the version at which it starts. Refused: `NoMemory`.
    pub fn of(alloc: Global, steps: Vec<GuardedStep>) -> Result<LinkedSteps, Refusal>
        ensures ok { IfOk result (λ linked. linked ≡ steps.items) }
        ensures memory { IfErr result (λ e. e ≡ Refusal.NoMemory) }
    {
        let links = links_of(alloc, steps.as_slice())?;
        Ok(LinkedSteps { steps, links })
    }

    /// The steps.
    pub fn steps(&self) -> &[GuardedStep]
        ensures { result.now ≡ self.now }
    {
        self.steps.as_slice()
    }

    // Their index.
    pub(crate) fn links(&self) -> &Links
        ensures { IsLinked self.now result.now }
    {
        &self.links
    }
}

// The heads of some steps, and the head by which each version is known.
#[derive(Drop)]
struct Heads {
    heads: Vec<usize>,
    numbers: BTreeMap<VetVersion, usize>,
}

// The steps that start from nothing, and those that start at the version of each head.
#[derive(Drop)]
struct Filed {
    first: Vec<usize>,
    after: Vec<Vec<usize>>,
}

fn links_of(alloc: Global, steps: &[GuardedStep]) -> Result<Links, Refusal>
    ensures ok { IfOk result (λ links. IsLinked steps.now links) }
    ensures memory { IfErr result (λ e. e ≡ Refusal.NoMemory) }
{
    let found = heads_of(alloc, steps)?;
    let filed = filed_of(alloc, steps, &found)?;
    Ok(Links {
        heads: found.heads,
        first: filed.first,
        after: filed.after,
    })
}

fn heads_of(alloc: Global, steps: &[GuardedStep]) -> Result<Heads, Refusal>
    ensures ok { IfOk result (λ found.
        AreHeads steps.now (get version_cmp found.numbers) found.heads.items (length steps.now)) }
    ensures memory { IfErr result (λ e. e ≡ Refusal.NoMemory) }
{
    let mut heads = Vec::new(alloc);
    let mut numbers = BTreeMap::new(alloc);
    'steps: for place in 0..steps.len() {
        let head = head_of(&mut numbers, &steps[place].step.target, place)?;
        heads.push(head)?;
    }
    Ok(Heads { heads, numbers })
}

// The head by which a version is known. If it is not known yet, this place becomes its head.
fn head_of(
    numbers: &mut BTreeMap<VetVersion, usize>,
    version: &VetVersion,
    place: usize,
) -> Result<usize, Refusal>
    ensures head { IfOk result (λ head. head ≡ unwrap_or (get version_cmp numbers.old version.now) place) }
    ensures knows { IfOk result (λ head.
        Knows version.now head (get version_cmp numbers.old) (get version_cmp numbers.new)) }
    ensures memory { IfErr result (λ e. e ≡ Refusal.NoMemory) }
{
    if let Some(head) = numbers.get(version).copied() {
        return Ok(head);
    }
    numbers.insert(version.clone()?, place)?;
    Ok(place)
}

fn filed_of(alloc: Global, steps: &[GuardedStep], found: &Heads) -> Result<Filed, Refusal>
    requires { AreHeads steps.now (get version_cmp found.now.numbers) found.now.heads.items (length steps.now) }
    ensures ok { IfOk result (λ filed.
        AreFiled steps.now found.now.heads.items filed.first.items (lists_in filed.after.items) (length steps.now)) }
    ensures memory { IfErr result (λ e. e ≡ Refusal.NoMemory) }
{
    let mut filed = Filed {
        first: Vec::new(alloc),
        after: empty_lists(alloc, steps.len())?,
    };
    'steps: for place in 0..steps.len() {
        file(steps, found, place, &mut filed)?;
    }
    Ok(filed)
}

// Files one more step under its start. A step that starts at a version to which no step leads is not filed.
fn file(
    steps: &[GuardedStep],
    found: &Heads,
    place: usize,
    filed: &mut Filed,
) -> Result<(), Refusal>
    requires place { place < length steps.now }
    requires heads { AreHeads steps.now (get version_cmp found.now.numbers) found.now.heads.items (length steps.now) }
    requires filed { AreFiled steps.now found.now.heads.items
        filed.old.first.items (lists_in filed.old.after.items) place }
    ensures ok { IfOk result (λ _.
        AreFiled steps.now found.now.heads.items filed.new.first.items (lists_in filed.new.after.items) (place + 1)) }
    ensures memory { IfErr result (λ e. e ≡ Refusal.NoMemory) }
{
    let Some(origin) = &steps[place].step.origin else {
        filed.first.push(place)?;
        return Ok(());
    };
    let Some(head) = found.numbers.get(origin).copied() else {
        return Ok(());
    };
    push_at(&mut filed.after, head, place)
}
