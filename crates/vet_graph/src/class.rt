//! The class that chains of steps give a version.
ghost use Rattle.std.specs.Prelude.{◌≡◌, ◌↔◌, ℕ, true, IsTrue, IfOk, IfErr};
ghost use Rattle.vet_base.specs.CriteriaSet.{has};
ghost use Rattle.vet_graph.specs.Chain.{Condemned};
ghost use Rattle.vet_graph.specs.Class.{IsClass, IsConflicting, IsExempted, IsFull, IsPartial, class_word};
ghost use Rattle.vet_graph.specs.ClassAt.{class_at};
ghost use Rattle.vet_graph.specs.Search.{Agrees, AreGuardedAt, IsReached, steps_in};

use crate::links::LinkedSteps;
use crate::search::{Terms, leads_to, search};
use crate::skip::Skip;
use std::alloc::Global;
use vet_base::criteria_set::CriteriaSet;
use vet_base::refusal::Refusal;
use vet_base::version::VetVersion;

/// How well a version is vouched for, for one criterion: the first of these classes that applies.
#[derive(Clone, Copy, PartialEq, Eq)]
pub enum Class {
    /// The version is condemned, and a chain leads to it, clean or not.
    Conflicting,
    /// A clean chain without an exempt step leads to it.
    Full,
    /// A clean chain whose last step is not exempt leads to it.
    Partial,
    /// A clean chain leads to it.
    Exempted,
    /// None of these applies.
    Unvetted,
}

impl Class {
    /// The word of the class: its name in lower case.
    pub fn word(self) -> &'static str
        ensures { result.now ≡ class_word self }
    {
        match self {
            Class::Conflicting => "conflicting",
            Class::Full => "full",
            Class::Partial => "partial",
            Class::Exempted => "exempted",
            Class::Unvetted => "unvetted",
        }
    }
}

/// The class of a version for the criterion at a place, by these steps (ours). `condemned` has the criteria for which
/// the version is condemned. The class is that of the definition, for any condemned versions that agree with the steps
/// and with `condemned`. There must be such versions: for this criterion, all steps to one version carry the same, and
/// those to `version` what `condemned` has. Costs at most four searches, each of which looks at each step at most once.
/// Refused: `NoMemory`.
pub(crate) fn class_of(
    alloc: Global,
    steps: &LinkedSteps,
    condemned: &CriteriaSet,
    place: usize,
    version: &VetVersion,
) -> Result<Class, Refusal>
    requires { (condemned_for : Condemned) × Agrees steps.now condemned.now place version.now condemned_for }
    ensures is { (condemned_for : Condemned) → Agrees steps.now condemned.now place version.now condemned_for
        → IfOk result (IsClass (steps_in steps.now) condemned_for place version.now) }
    ensures class { (condemned_for : Condemned) → Agrees steps.now condemned.now place version.now condemned_for
        → IfOk result (λ class. class ≡ class_at (steps_in steps.now) condemned_for place version.now) }
    ensures memory { IfErr result (λ e. e ≡ Refusal.NoMemory) }
{
    if is_conflicting(alloc, steps, condemned, place, version)? {
        return Ok(Class::Conflicting);
    }
    if is_fully_vetted(alloc, steps, place, version)? {
        return Ok(Class::Full);
    }
    if is_partly_vetted(alloc, steps, place, version)? {
        return Ok(Class::Partial);
    }
    if is_vouched_for(alloc, steps, place, version)? {
        return Ok(Class::Exempted);
    }
    Ok(Class::Unvetted)
}

// Whether the version is condemned and some chain leads to it, possibly through condemned versions.
fn is_conflicting(
    alloc: Global,
    steps: &LinkedSteps,
    condemned: &CriteriaSet,
    place: usize,
    version: &VetVersion,
) -> Result<bool, Refusal>
    ensures ok { (condemned_for : Condemned) → has place condemned.now ≡ condemned_for place version.now
        → IfOk result (λ b. IsTrue b ↔ IsConflicting (steps_in steps.now) condemned_for place version.now) }
    ensures memory { IfErr result (λ e. e ≡ Refusal.NoMemory) }
{
    if !condemned.has(place) {
        return Ok(false);
    }
    let terms = Terms {
        place,
        barred: false,
        skip: Skip::Nothing,
    };
    is_reached(alloc, steps, &terms, version)
}

// Whether some clean chain has no exempt step.
fn is_fully_vetted(
    alloc: Global,
    steps: &LinkedSteps,
    place: usize,
    version: &VetVersion,
) -> Result<bool, Refusal>
    ensures ok { (condemned_for : Condemned) → AreGuardedAt place condemned_for steps.now
        → IfOk result (λ b. IsTrue b ↔ IsFull (steps_in steps.now) condemned_for place version.now) }
    ensures memory { IfErr result (λ e. e ≡ Refusal.NoMemory) }
{
    is_cleanly_reached(alloc, steps, place, Skip::Exempt, version)
}

// Whether some clean chain ends in a step that is not exempt.
fn is_partly_vetted(
    alloc: Global,
    steps: &LinkedSteps,
    place: usize,
    version: &VetVersion,
) -> Result<bool, Refusal>
    ensures ok { (condemned_for : Condemned) → AreGuardedAt place condemned_for steps.now
        → IfOk result (λ b. IsTrue b ↔ IsPartial (steps_in steps.now) condemned_for place version.now) }
    ensures memory { IfErr result (λ e. e ≡ Refusal.NoMemory) }
{
    let skip = Skip::ExemptTo(version);
    is_cleanly_reached(alloc, steps, place, skip, version)
}

// Whether some clean chain leads to the version.
fn is_vouched_for(
    alloc: Global,
    steps: &LinkedSteps,
    place: usize,
    version: &VetVersion,
) -> Result<bool, Refusal>
    ensures ok { (condemned_for : Condemned) → AreGuardedAt place condemned_for steps.now
        → IfOk result (λ b. IsTrue b ↔ IsExempted (steps_in steps.now) condemned_for place version.now) }
    ensures memory { IfErr result (λ e. e ≡ Refusal.NoMemory) }
{
    is_cleanly_reached(alloc, steps, place, Skip::Nothing, version)
}

// Whether a search that skips these steps, and goes through no condemned version, reaches the version.
fn is_cleanly_reached(
    alloc: Global,
    steps: &LinkedSteps,
    place: usize,
    skip: Skip<'_>,
    version: &VetVersion,
) -> Result<bool, Refusal>
    ensures ok { IfOk result (λ b.
        IsTrue b ↔ IsReached steps.now (record { place = place; barred = true; skip = skip.entry }) version.now) }
    ensures memory { IfErr result (λ e. e ≡ Refusal.NoMemory) }
{
    let terms = Terms {
        place,
        barred: true,
        skip,
    };
    is_reached(alloc, steps, &terms, version)
}

// Whether a search on these terms reaches the version.
fn is_reached(
    alloc: Global,
    steps: &LinkedSteps,
    terms: &Terms<'_>,
    version: &VetVersion,
) -> Result<bool, Refusal>
    ensures ok { IfOk result (λ b. IsTrue b ↔ IsReached steps.now terms.now version.now) }
    ensures memory { IfErr result (λ e. e ≡ Refusal.NoMemory) }
{
    let reached = search(alloc, steps, terms)?;
    Ok(leads_to(steps.steps(), reached.as_slice(), version))
}
