//! Steps of trust, and the steps that entries give.
ghost use Rattle.std.specs.Prelude.{◌≡◌, ◌++◌, ◌∷◌, [], IfOk, IfErr, OnOk, if◌then◌else◌, true};
ghost use Rattle.vet_entries.specs.Step.{delta_step, first_step, is_covered, kind_steps, steps_of, window_steps};

use crate::facts::EntryFacts;
use crate::kind::{Kind, Window, is_over};
use crate::local_criteria::LocalCriteria;
use crate::package_entries::PackageEntries;
use crate::publisher::Publisher;
use std::alloc::{AllocError, Global};
use vet_base::criteria_set::CriteriaSet;
use vet_base::day::Day;
use vet_base::delta::Delta;
use vet_base::name::PackageName;
use vet_base::refusal::Refusal;
use vet_base::version::VetVersion;

/// A step of trust to a version of a package, from nothing or from another version.
pub struct Step {
    /// The version from which it leads, or `None` if it leads from nothing.
    pub origin: Option<VetVersion>,
    /// The version to which it leads.
    pub target: VetVersion,
    /// The criteria for which it vouches: those of its entry, and all that these imply.
    pub criteria: CriteriaSet,
    /// Whether it comes from an exemption.
    pub exempt: bool,
}

impl Drop for Step {
    fn drop(self) {
        let Step {
            origin: _,
            target: _,
            criteria: _,
            exempt: _,
        } = self;
    }
}

/// The steps of a package, given by one's own entries and by those of each peer that does not exclude it. They are in
/// the order of the entries' numbers and, within one entry, in that of the publisher records. Costs the closures of
/// one's own table, and then as much as `PackageEntries::of` and `into_steps`. Refused: `NoMemory`.
pub fn steps_of(
    alloc: Global,
    package: &PackageName,
    facts: &EntryFacts,
) -> Result<Vec<Step>, Refusal>
    ensures ok { IfOk result (λ steps. steps.items ≡ steps_of facts.now.content «package».now) }
    ensures memory { IfErr result (λ e. e ≡ Refusal.NoMemory) }
{
    let mut local = LocalCriteria::of(alloc, facts)?;
    let entries = PackageEntries::of(alloc, package, facts)?;
    entries.into_steps(alloc, facts, &mut local)
}

/// Adds the steps of a kind on the register's day. Fails only if memory runs out.
pub(crate) fn add_kind_steps(
    steps: &mut Vec<Step>,
    kind: &Kind,
    today: Option<Day>,
    records: &[Publisher],
    criteria: CriteriaSet,
) -> Result<(), AllocError>
    ensures { OnOk result (steps.new.items ≡ steps.old.items ++ kind_steps today criteria records.now kind.now) }
{
    match kind {
        Kind::Full(version, _) => add(steps, first_step(version, criteria, false)?),
        Kind::Delta(delta, _) => add(steps, delta_step(delta, criteria)?),
        Kind::Violation(_, _) => Ok(()),
        Kind::Wildcard(window, _) => add_window(steps, window, records, criteria),
        Kind::Trusted(window) => add_window(steps, window, records, criteria),
        Kind::Exemption {
            version,
            suggest: _,
            last_day,
        } => add_exemption(steps, version, is_over(*last_day, today), criteria),
    }
}

// Adds the step of an exemption, unless its last day is over.
fn add_exemption(
    steps: &mut Vec<Step>,
    version: &VetVersion,
    over: bool,
    criteria: CriteriaSet,
) -> Result<(), AllocError>
    ensures { OnOk result (steps.new.items
        ≡ steps.old.items ++ (if over then [] else first_step criteria true version.now ∷ [])) }
{
    if over {
        return Ok(());
    }
    add(steps, first_step(version, criteria, true)?)
}

// Adds a step.
fn add(steps: &mut Vec<Step>, step: Step) -> Result<(), AllocError>
    ensures { OnOk result (steps.new.items ≡ steps.old.items ++ step ∷ []) }
{
    steps.push(step)?;
    Ok(())
}

// Adds the steps that a window gives.
fn add_window(
    steps: &mut Vec<Step>,
    window: &Window,
    records: &[Publisher],
    criteria: CriteriaSet,
) -> Result<(), AllocError>
    ensures { OnOk result (steps.new.items ≡ steps.old.items ++ window_steps criteria records.now window.now) }
{
    for published in records {
        if window.covers(published) {
            add(steps, first_step(&published.version, criteria, false)?)?;
        }
    }
    Ok(())
}

impl Window {
    // Whether a record is of the window's user and of one of its days.
    fn covers(&self, published: &Publisher) -> bool
        ensures { result ≡ is_covered self.now published.now }
    {
        published.user == self.user && self.first <= published.day && published.day <= self.last
    }
}

// A step from one version to another.
fn delta_step(delta: &Delta, criteria: CriteriaSet) -> Result<Step, AllocError>
    ensures { IfOk result (λ step. step ≡ delta_step criteria delta.now) }
{
    Ok(Step {
        origin: Some(delta.from.clone()?),
        target: delta.to.clone()?,
        criteria,
        exempt: false,
    })
}

// A step from nothing to a version.
fn first_step(version: &VetVersion, criteria: CriteriaSet, exempt: bool) -> Result<Step, AllocError>
    ensures { IfOk result (λ step. step ≡ first_step criteria exempt version.now) }
{
    Ok(Step {
        origin: None,
        target: version.clone()?,
        criteria,
        exempt,
    })
}
