//! The class of one pair by the facts.
ghost use Rattle.std.specs.Prelude.{◌≡◌, IfOk, IfErr};
ghost use Rattle.vet_graph.specs.Class.{IsClassOfPair};
ghost use Rattle.vet_graph.specs.PackageSteps.{AreStepsOf};
ghost use Rattle.vet_graph.specs.StandingOf.{class_of_pair};

use crate::class::{Class, class_of};
use crate::package_steps::{PackageSteps, found_steps_to};
use std::alloc::Global;
use vet_base::refusal::Refusal;
use vet_demand::pair::Pair;
use vet_entries::condemned::{condemned_by, violations_condemn};
use vet_entries::facts::EntryFacts;
use vet_entries::local_criteria::LocalCriteria;

/// The class of a pair by these facts; `Unvetted` if the table lacks its criterion. Finds the local criteria of the
/// package's entries and its steps, and searches the steps that chains to the version can take at most four times.
/// Judges only that version and those to which these steps lead. Refused: `NoMemory`.
pub fn class_of_pair(alloc: Global, facts: &EntryFacts, pair: &Pair) -> Result<Class, Refusal>
    ensures is { IfOk result (IsClassOfPair facts.now.content pair.now) }
    ensures ok { IfOk result (λ class. class ≡ class_of_pair facts.now.content pair.now) }
    ensures memory { IfErr result (λ e. e ≡ Refusal.NoMemory) }
{
    violations_condemn();
    match facts.criteria().place(&pair.criterion) {
        Some(place) => {
            let mut local = LocalCriteria::of(alloc, facts)?;
            let held = found_steps_to(alloc, pair, place, facts, &mut local)?;
            let condemned = condemned_by(held.violations.as_slice(), &pair.version);
            class_of(alloc, &held.steps, &condemned, place, &pair.version)
        }
        None => Ok(Class::Unvetted),
    }
}

// The class of a pair, by these steps and violations of its package.
pub(crate) fn class_by(
    alloc: Global,
    facts: &EntryFacts,
    found: &PackageSteps,
    pair: &Pair,
) -> Result<Class, Refusal>
    requires { AreStepsOf facts.now.content pair.now.«package» found.now }
    ensures ok { IfOk result (λ class. class ≡ class_of_pair facts.now.content pair.now) }
    ensures memory { IfErr result (λ e. e ≡ Refusal.NoMemory) }
{
    violations_condemn();
    let Some(place) = facts.criteria().place(&pair.criterion) else {
        return Ok(Class::Unvetted);
    };
    let condemned = condemned_by(found.violations.as_slice(), &pair.version);
    class_of(alloc, &found.steps, &condemned, place, &pair.version)
}
