//! The steps of one package, and the criteria for which their targets are condemned.
ghost use Rattle.std.specs.Prelude.{◌≡◌, ◌<◌, IfOk, IfErr};
ghost use Rattle.vet_entries.specs.Condemned.{condemned_by};
ghost use Rattle.vet_entries.specs.LocalCriteria.{AreLocal};
ghost use Rattle.vet_graph.specs.Leading.{AreStepsTo};
ghost use Rattle.vet_graph.specs.PackageSteps.{AreLinked, AreStepsOf};
ghost use Rattle.vet_graph.specs.Search.{AreGuarded, steps_in};

use crate::guarded::GuardedStep;
use crate::leading::steps_to;
use crate::links::LinkedSteps;
use std::alloc::Global;
use std::collections::BTreeMap;
use vet_base::limits::MOST_CRITERIA;
use vet_base::name::PackageName;
use vet_base::refusal::Refusal;
use vet_demand::pair::Pair;
use vet_entries::condemned::Violation;
use vet_entries::facts::EntryFacts;
use vet_entries::judge::{judge, merged};
use vet_entries::local_criteria::LocalCriteria;
use vet_entries::package_entries::PackageEntries;
use vet_entries::step::Step;

// A package: its steps, each with the criteria for which its target is condemned, and its violations.
pub(crate) struct PackageSteps {
    pub(crate) package: PackageName,
    pub(crate) steps: LinkedSteps,
    pub(crate) violations: Vec<Violation>,
}

impl Drop for PackageSteps {
    fn drop(self) {
        let PackageSteps {
            package: _,
            steps: _,
            violations: _,
        } = self;
    }
}

// The steps of a package, each with the criteria for which its target is condemned.
pub(crate) fn found_steps(
    alloc: Global,
    package: &PackageName,
    facts: &EntryFacts,
    local: &mut LocalCriteria,
) -> Result<PackageSteps, Refusal>
    requires { AreLocal facts.now.content local.old }
    ensures steps { IfOk result (AreStepsOf facts.now.content «package».now) }
    ensures memory { IfErr result (λ e. e ≡ Refusal.NoMemory) }
    ensures local { AreLocal facts.now.content local.new }
{
    let entries = PackageEntries::of(alloc, package, facts)?;
    let violations = entries.violations(alloc, facts, local.own())?;
    let steps = entries.into_steps(alloc, facts, local)?;
    linked(alloc, package, steps, violations)
}

// The steps of a pair's package that chains to its version can take, for the criterion at this place. Versions to
// which none of these leads are not judged.
pub(crate) fn found_steps_to(
    alloc: Global,
    pair: &Pair,
    place: usize,
    facts: &EntryFacts,
    local: &mut LocalCriteria,
) -> Result<PackageSteps, Refusal>
    requires local { AreLocal facts.now.content local.old }
    requires place { place < MOST_CRITERIA }
    ensures steps { IfOk result (AreStepsTo facts.now.content pair.now place) }
    ensures memory { IfErr result (λ e. e ≡ Refusal.NoMemory) }
{
    let entries = PackageEntries::of(alloc, &pair.package, facts)?;
    let violations = entries.violations(alloc, facts, local.own())?;
    let all = entries.into_steps(alloc, facts, local)?;
    let steps = steps_to(alloc, all, place, &pair.version)?;
    linked(alloc, &pair.package, steps, violations)
}

// Steps of a package, each with the criteria for which these violations condemn its target, and an index.
fn linked(
    alloc: Global,
    package: &PackageName,
    steps: Vec<Step>,
    violations: Vec<Violation>,
) -> Result<PackageSteps, Refusal>
    ensures linked { IfOk result (AreLinked «package».now steps.items violations.items) }
    ensures memory { IfErr result (λ e. e ≡ Refusal.NoMemory) }
{
    let guarded = guarded(alloc, steps, violations.as_slice())?;
    Ok(PackageSteps {
        package: package.clone()?,
        steps: LinkedSteps::of(alloc, guarded)?,
        violations,
    })
}

// Steps, each with the criteria for which these violations condemn its target. Each distinct version is judged
// once, by each distinct requirement.
fn guarded(
    alloc: Global,
    steps: Vec<Step>,
    violations: &[Violation],
) -> Result<Vec<GuardedStep>, Refusal>
    ensures steps { IfOk result (λ guarded. steps_in guarded.items ≡ steps.items) }
    ensures guards { IfOk result (λ guarded. AreGuarded (condemned_by violations.now) guarded.items) }
    ensures memory { IfErr result (λ e. e ≡ Refusal.NoMemory) }
{
    let merged = merged(alloc, violations)?;
    let mut judged = BTreeMap::new(alloc);
    let mut guarded = Vec::new(alloc);
    'steps: for step in steps {
        let condemned = judge(&mut judged, merged.as_slice(), &step.target)?;
        guarded.push(GuardedStep { step, condemned })?;
    }
    Ok(guarded)
}
