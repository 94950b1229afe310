//! The steps that chains to a version can take.
//!
//! **Each chain to the version consists of these steps, so they are enough to give it its class.** Steps that lead
//! elsewhere are left out, and their targets need not be judged.
//!
//! A search back from the version finds them. Each step from one version to another is turned around, and a further
//! step leads from nothing to the version. A chain, read from its end, is a walk along these.
ghost use Rattle.std.specs.Prelude.{◌≡◌, ◌++◌, ◌<◌, IfErr, IfOk, OnOk, filter, length, true};
ghost use Rattle.std.specs.BTreeSet.{contains};
ghost use Rattle.std.specs.List.{All, Contains};
ghost use Rattle.vet_base.specs.Version.{VersionValue};
ghost use Rattle.vet_base.specs.VersionOrder.{version_cmp};
ghost use Rattle.vet_graph.specs.Leading.{KeepChains, turned, turned_steps, walk_start};
ghost use Rattle.vet_graph.specs.Search.{steps_in, versions_at};

use crate::guarded::GuardedStep;
use crate::links::LinkedSteps;
use crate::search::{Terms, search};
use crate::skip::Skip;
use std::alloc::Global;
use std::collections::BTreeSet;
use vet_base::criteria_set::CriteriaSet;
use vet_base::limits::MOST_CRITERIA;
use vet_base::refusal::Refusal;
use vet_base::version::VetVersion;
use vet_entries::step::Step;

/// The steps, among these, that chains to a version can take, for the criterion at a place. Costs an index of the
/// steps, and a search. Refused: `NoMemory`.
pub(crate) fn steps_to(
    alloc: Global,
    steps: Vec<Step>,
    place: usize,
    version: &VetVersion,
) -> Result<Vec<Step>, Refusal>
    requires { place < MOST_CRITERIA }
    ensures chains { IfOk result (λ kept. KeepChains steps.items place version.now kept.items) }
    ensures memory { IfErr result (λ e. e ≡ Refusal.NoMemory) }
{
    let turned = turned_steps(alloc, steps.as_slice(), place, version)?;
    let linked = LinkedSteps::of(alloc, turned)?;
    let terms = Terms {
        place,
        barred: false,
        skip: Skip::Nothing,
    };
    let reached = search(alloc, &linked, &terms)?;
    let versions = versions_at(alloc, linked.steps(), reached.as_slice())?;
    kept(alloc, steps, &versions)
}

// The steps of walks back from a version.
fn turned_steps(
    alloc: Global,
    steps: &[Step],
    place: usize,
    version: &VetVersion,
) -> Result<Vec<GuardedStep>, Refusal>
    requires { place < MOST_CRITERIA }
    ensures turned { IfOk result (λ turned. steps_in turned.items ≡ turned_steps place version.now steps.now) }
    ensures memory { IfErr result (λ e. e ≡ Refusal.NoMemory) }
{
    let mut turned = Vec::new(alloc);
    turned.push(walk_start(place, version)?)?;
    'steps: for step in steps {
        add_turned(&mut turned, step)?;
    }
    Ok(turned)
}

// The first step of a walk back from a version.
fn walk_start(place: usize, version: &VetVersion) -> Result<GuardedStep, Refusal>
    requires { place < MOST_CRITERIA }
    ensures start { IfOk result (λ g. g.step ≡ walk_start place version.now) }
    ensures memory { IfErr result (λ e. e ≡ Refusal.NoMemory) }
{
    Ok(unguarded(Step {
        origin: None,
        target: version.clone()?,
        criteria: CriteriaSet::empty().with(place),
        exempt: false,
    }))
}

// Adds a step turned around, if it starts at a version.
fn add_turned(walk: &mut Vec<GuardedStep>, step: &Step) -> Result<(), Refusal>
    ensures added { OnOk result (steps_in walk.new.items ≡ steps_in walk.old.items ++ turned step.now) }
    ensures memory { IfErr result (λ e. e ≡ Refusal.NoMemory) }
{
    let Some(origin) = &step.origin else {
        return Ok(());
    };
    walk.push(unguarded(Step {
        origin: Some(step.target.clone()?),
        target: origin.clone()?,
        criteria: step.criteria,
        exempt: step.exempt,
    }))?;
    Ok(())
}

// A step of a walk that nothing bars.
fn unguarded(step: Step) -> GuardedStep
    ensures { result.step ≡ step }
{
    GuardedStep {
        step,
        condemned: CriteriaSet::empty(),
    }
}

// The versions to which the steps at some places lead.
fn versions_at(
    alloc: Global,
    steps: &[GuardedStep],
    places: &[usize],
) -> Result<BTreeSet<VetVersion>, Refusal>
    requires { All (λ p. p < length steps.now) places.now }
    ensures versions { IfOk result (λ versions. (v : VersionValue) → Contains (versions_at steps.now places.now) v
        → contains version_cmp versions v ≡ true) }
    ensures memory { IfErr result (λ e. e ≡ Refusal.NoMemory) }
{
    let mut versions = BTreeSet::new(alloc);
    'places: for place in places {
        versions.insert(steps[*place].step.target.clone()?)?;
    }
    Ok(versions)
}

// The steps that lead to some versions.
fn kept(
    alloc: Global,
    steps: Vec<Step>,
    versions: &BTreeSet<VetVersion>,
) -> Result<Vec<Step>, Refusal>
    ensures kept { IfOk result (λ kept.
        kept.items ≡ filter (λ s. contains version_cmp versions.now s.target) steps.items) }
    ensures memory { IfErr result (λ e. e ≡ Refusal.NoMemory) }
{
    let mut kept = Vec::new(alloc);
    'steps: for step in steps {
        if versions.contains(&step.target) {
            kept.push(step)?;
        }
    }
    Ok(kept)
}
