//! Lines that ask what the entries say of a package.
//!
//! `steps PACKAGE` prints its steps, a line each: where it starts or `-`, where it leads, `exempt` or `-`, and its
//! criteria in the order of the table. `violations PACKAGE` prints its violations, each in brackets: the requirement,
//! and the criteria for which it condemns a version, or `-`. `condemned PACKAGE VERSION` prints the criteria for which
//! a version is condemned. If there is nothing to print, each prints `-`.

use crate::fault::Fault;
use crate::line::{one, two};
use crate::lists::push_in_brackets;
use std::alloc::Global;
use vet_base::criteria_set::CriteriaSet;
use vet_base::criteria_table::CriteriaTable;
use vet_base::name::PackageName;
use vet_base::version::VetVersion;
use vet_entries::condemned::{Violation, condemned, violations_of};
use vet_entries::facts::EntryFacts;
use vet_entries::step::{Step, steps_of};

/// The steps of a package. Refused: `BadName`, and `NoMemory`.
pub fn steps(alloc: Global, facts: &EntryFacts, texts: &[String]) -> Result<String, Fault> {
    let package = PackageName::parse(alloc, one(texts)?)?;
    let steps = steps_of(alloc, &package, facts)?;
    steps_text(alloc, facts.criteria(), steps.as_slice())
}

/// The violations of a package. Refused: `BadName`, and `NoMemory`.
pub fn violations(alloc: Global, facts: &EntryFacts, texts: &[String]) -> Result<String, Fault> {
    let package = PackageName::parse(alloc, one(texts)?)?;
    let violations = violations_of(alloc, &package, facts)?;
    violations_text(alloc, facts.criteria(), violations.as_slice())
}

/// The criteria for which a version of a package is condemned. Refused: `BadName`, `BadVersion`, and `NoMemory`.
pub fn condemned_criteria(
    alloc: Global,
    facts: &EntryFacts,
    texts: &[String],
) -> Result<String, Fault> {
    let (package, version) = two(texts)?;
    let package = PackageName::parse(alloc, package)?;
    let version = VetVersion::parse(alloc, version)?;
    let criteria = condemned(&package, &version, facts);
    let told = criteria_text(alloc, facts.criteria(), &criteria)?;
    or_none(alloc, told)
}

/// The names of some criteria in the order of the table, with a space between them. Refused: `NoMemory`.
pub fn criteria_text(
    alloc: Global,
    table: &CriteriaTable,
    criteria: &CriteriaSet,
) -> Result<String, Fault> {
    let mut told = String::new(alloc);
    for name in table.names() {
        if criteria.contains(name, table) {
            push_behind(&mut told, " ", name.as_str())?;
        }
    }
    Ok(told)
}

fn steps_text(alloc: Global, table: &CriteriaTable, steps: &[Step]) -> Result<String, Fault> {
    let mut told = String::new(alloc);
    for step in steps {
        let line = step_text(alloc, table, step)?;
        push_behind(&mut told, "\n", line.as_str())?;
    }
    or_none(alloc, told)
}

fn violations_text(
    alloc: Global,
    table: &CriteriaTable,
    violations: &[Violation],
) -> Result<String, Fault> {
    let mut told = String::new(alloc);
    for violation in violations {
        let text = violation_text(alloc, table, violation)?;
        push_in_brackets(&mut told, text.as_str())?;
    }
    or_none(alloc, told)
}

fn violation_text(
    alloc: Global,
    table: &CriteriaTable,
    violation: &Violation,
) -> Result<String, Fault> {
    let criteria = or_none(alloc, criteria_text(alloc, table, &violation.criteria)?)?;
    let mut told = violation.requirement.to_string(alloc)?;
    push_behind(&mut told, " ", criteria.as_str())?;
    Ok(told)
}

fn step_text(alloc: Global, table: &CriteriaTable, step: &Step) -> Result<String, Fault> {
    let mut told = origin(alloc, &step.origin)?;
    push_target(alloc, &mut told, step)?;
    push_criteria(alloc, &mut told, table, step)?;
    Ok(told)
}

fn push_target(alloc: Global, told: &mut String, step: &Step) -> Result<(), Fault> {
    let target = step.target.to_string(alloc)?;
    push_behind(told, " ", target.as_str())?;
    push_behind(told, " ", if step.exempt { "exempt" } else { "-" })
}

fn push_criteria(
    alloc: Global,
    told: &mut String,
    table: &CriteriaTable,
    step: &Step,
) -> Result<(), Fault> {
    let criteria = criteria_text(alloc, table, &step.criteria)?;
    if criteria.is_empty() {
        return Ok(());
    }
    push_behind(told, " ", criteria.as_str())
}

fn origin(alloc: Global, origin: &Option<VetVersion>) -> Result<String, Fault> {
    match origin {
        Some(version) => Ok(version.to_string(alloc)?),
        None => Ok(String::from_str(alloc, "-")?),
    }
}

/// Adds a text, after a separator if there is something before it. Refused: `NoMemory`.
pub fn push_behind(told: &mut String, separator: &str, text: &str) -> Result<(), Fault> {
    if !told.is_empty() {
        told.push_str(separator)?;
    }
    told.push_str(text)?;
    Ok(())
}

/// A text, or `-` where it is empty. Refused: `NoMemory`.
pub fn or_none(alloc: Global, told: String) -> Result<String, Fault> {
    if told.is_empty() {
        return Ok(String::from_str(alloc, "-")?);
    }
    Ok(told)
}
