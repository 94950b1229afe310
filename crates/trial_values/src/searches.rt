//! Lines that ask what a counted search finds among the steps of a package.
//!
//! `search PACKAGE SKIP` prints how many looks the search took, and then a line for each step: the version to which it
//! leads, and the criteria for which chains lead there, or `-`. SKIP is `nothing`, `exempt`, or a version: the exempt
//! steps to it are skipped. A version is barred for what condemns it. `extend PACKAGE SKIP` prints the same of an
//! answer that was extended by one step after the other.
ghost use Rattle.std.specs.Prelude.{◌≡◌, ◌+◌, ◌<◌, IfOk, length, take};
ghost use Rattle.vet_entries.specs.Step.{steps_of};
ghost use Rattle.vet_graph.specs.Search.{may_take};
ghost use Rattle.vet_masks.specs.Reached.{IsAnswer};
ghost use Rattle.vet_masks.specs.Vouched.{barred_by};

use crate::fault::Fault;
use crate::line::two;
use crate::steps::{criteria_text, or_none, push_behind};
use std::alloc::Global;
use vet_base::criteria_table::CriteriaTable;
use vet_base::name::PackageName;
use vet_base::version::VetVersion;
use vet_entries::condemned::condemned;
use vet_entries::facts::EntryFacts;
use vet_entries::step::{Step, steps_of};
use vet_graph::skip::Skip;
use vet_masks::looks::Looks;
use vet_masks::search::{Barred, Reached, extend, search};

// How an answer is found.
#[derive(Clone, Copy)]
enum Way {
    AtOnce,
    StepByStep,
}

/// What a search finds at once. Refused: `BadName`, `BadVersion`, and `NoMemory`.
pub fn searched(alloc: Global, facts: &EntryFacts, texts: &[String]) -> Result<String, Fault> {
    found(alloc, facts, texts, Way::AtOnce)
}

/// What it finds step by step. Refused: `BadName`, `BadVersion`, and `NoMemory`.
pub fn extended(alloc: Global, facts: &EntryFacts, texts: &[String]) -> Result<String, Fault> {
    found(alloc, facts, texts, Way::StepByStep)
}

fn found(alloc: Global, facts: &EntryFacts, texts: &[String], way: Way) -> Result<String, Fault> {
    let (package, skip) = two(texts)?;
    let package = PackageName::parse(alloc, package)?;
    match skip {
        "nothing" => search_text(alloc, facts, &package, &Skip::Nothing, way),
        "exempt" => search_text(alloc, facts, &package, &Skip::Exempt, way),
        text => {
            let version = VetVersion::parse(alloc, text)?;
            search_text(alloc, facts, &package, &Skip::ExemptTo(&version), way)
        }
    }
}

fn search_text(
    alloc: Global,
    facts: &EntryFacts,
    package: &PackageName,
    skip: &Skip<'_>,
    way: Way,
) -> Result<String, Fault> {
    let steps = steps_of(alloc, package, facts)?;
    let barred = barred(alloc, package, facts, steps.as_slice())?;
    let reached = match way {
        Way::AtOnce => at_once(alloc, package, facts, barred.as_slice(), skip)?,
        Way::StepByStep => {
            step_by_step(alloc, package, facts, barred.as_slice(), skip, steps.len())?
        }
    };
    reached_text(alloc, facts.criteria(), steps.as_slice(), &reached)
}

// For what each version is condemned to which steps lead.
fn barred(
    alloc: Global,
    package: &PackageName,
    facts: &EntryFacts,
    steps: &[Step],
) -> Result<Vec<Barred>, Fault> {
    let mut barred = Vec::new(alloc);
    for step in steps {
        let criteria = condemned(package, &step.target, facts);
        barred.push(Barred {
            version: step.target.clone()?,
            criteria,
        })?;
    }
    Ok(barred)
}

fn at_once(
    alloc: Global,
    package: &PackageName,
    facts: &EntryFacts,
    barred: &[Barred],
    skip: &Skip<'_>,
) -> Result<Reached, Fault> {
    let mut looks = Looks::over(steps_of(alloc, package, facts)?);
    Ok(search(alloc, &mut looks, barred, skip)?)
}

fn step_by_step(
    alloc: Global,
    package: &PackageName,
    facts: &EntryFacts,
    barred: &[Barred],
    skip: &Skip<'_>,
    count: usize,
) -> Result<Reached, Fault>
    requires { count ≡ length (steps_of facts.now.content «package».now) }
{
    let mut looks = Looks::over(Vec::new(alloc));
    let mut reached = search(alloc, &mut looks, barred, skip)?;
    'steps: for first in 0..count {
        reached = with_one_more(alloc, package, facts, barred, skip, &reached, first)?;
    }
    Ok(reached)
}

// The answer for one step more than these first.
fn with_one_more(
    alloc: Global,
    package: &PackageName,
    facts: &EntryFacts,
    barred: &[Barred],
    skip: &Skip<'_>,
    reached: &Reached,
    first: usize,
) -> Result<Reached, Fault>
    requires first { first < length (steps_of facts.now.content «package».now) }
    requires answer { IsAnswer (take first (steps_of facts.now.content «package».now)) (barred_by barred.now)
        (may_take skip.now) reached.now }
    ensures { IfOk result (IsAnswer (take (first + 1) (steps_of facts.now.content «package».now))
        (barred_by barred.now) (may_take skip.now)) }
{
    let mut steps = steps_of(alloc, package, facts)?;
    steps.truncate(first + 1);
    let mut looks = Looks::over(steps);
    Ok(extend(alloc, reached, first, &mut looks, barred, skip)?)
}

fn reached_text(
    alloc: Global,
    table: &CriteriaTable,
    steps: &[Step],
    reached: &Reached,
) -> Result<String, Fault> {
    let mut told = String::new(alloc);
    let looks = reached.looks().to_string(alloc)?;
    told.push_str("looks ")?;
    told.push_str(looks.as_str())?;
    for step in steps {
        let line = version_text(alloc, table, &step.target, reached)?;
        push_behind(&mut told, "\n", line.as_str())?;
    }
    Ok(told)
}

fn version_text(
    alloc: Global,
    table: &CriteriaTable,
    version: &VetVersion,
    reached: &Reached,
) -> Result<String, Fault> {
    let mut told = version.to_string(alloc)?;
    let criteria = criteria_text(alloc, table, &reached.at(version))?;
    push_behind(&mut told, " ", or_none(alloc, criteria)?.as_str())?;
    Ok(told)
}
