//! The documents of the commands to policies.
ghost use Rattle.std.specs.Prelude.{◌≡◌};
ghost use Rattle.toml.specs.View.{table_view};
ghost use Rattle.vet_base.specs.Gives.{Gives};
ghost use Rattle.vet_documents.specs.PolicyDocument.{dependencies_told, dependency_policy_told, drop_policy_told};
ghost use Rattle.vet_documents.specs.PolicyDocument.{next_dependency, policy_told, set_policy_told};

use crate::document_field::policy_key_at;
use crate::document_keys::{COMMAND, refuse_others};
use crate::names_at::{names_if_any, read_names};
use std::alloc::Global;
use toml::{Table, Value};
use vet_base::name::PackageName;
use vet_base::names::Names;
use vet_base::refusal::Refusal;
use vet_demand::dependency_criteria::DependencyCriteria;
use vet_demand::policies::KeyedPolicy;
use vet_demand::policy::Policy;
use vet_files::field::optional;
use vet_files::keys::{
    AUDIT_AS_CRATES_IO, CRITERIA, DEPENDENCY_CRITERIA, DEV_CRITERIA, NOTES, POLICY,
};
use vet_files::read::document::table_at;
use vet_files::read::walk::{ReadMember, each_member};
use vet_register::command::Action;

/// Reads the command that sets the policy of a document.
pub(crate) fn read_set_policy(alloc: Global, document: &Table) -> Result<Action, Refusal>
    ensures { Gives (λ action. action) (set_policy_told (table_view document.now)) result }
{
    let key = policy_key_at(alloc, document, POLICY)?;
    let policy = read_policy(alloc, document)?;
    let known = [
        COMMAND,
        POLICY,
        AUDIT_AS_CRATES_IO,
        CRITERIA,
        DEV_CRITERIA,
        DEPENDENCY_CRITERIA,
        NOTES,
    ];
    refuse_others(alloc, COMMAND, document, &known)?;
    Ok(Action::SetPolicy(KeyedPolicy { key, policy }))
}

/// Reads the command that drops the policy of a key.
pub(crate) fn read_drop_policy(alloc: Global, document: &Table) -> Result<Action, Refusal>
    ensures { Gives (λ action. action) (drop_policy_told (table_view document.now)) result }
{
    let key = policy_key_at(alloc, document, POLICY)?;
    refuse_others(alloc, COMMAND, document, &[COMMAND, POLICY])?;
    Ok(Action::DropPolicy(key))
}

/// The policy of a document.
fn read_policy(alloc: Global, document: &Table) -> Result<Policy, Refusal>
    ensures { Gives (λ p. p) (policy_told (table_view document.now)) result }
{
    let audit_as_crates_io = optional(alloc, COMMAND, document, AUDIT_AS_CRATES_IO)?;
    let criteria = names_if_any(alloc, document, CRITERIA)?;
    let dev_criteria = names_if_any(alloc, document, DEV_CRITERIA)?;
    read_dependency_policy(alloc, document, audit_as_crates_io, criteria, dev_criteria)
}

/// The policy of a document, once the keys about its own package are read.
fn read_dependency_policy(
    alloc: Global,
    document: &Table,
    audit_as_crates_io: Option<bool>,
    criteria: Option<Names>,
    dev_criteria: Option<Names>,
) -> Result<Policy, Refusal>
    ensures { Gives (λ p. p)
        (dependency_policy_told (table_view document.now) audit_as_crates_io criteria dev_criteria) result }
{
    let dependency_criteria = read_dependencies(alloc, document)?;
    let notes = optional(alloc, COMMAND, document, NOTES)?;
    Ok(Policy {
        audit_as_crates_io,
        criteria,
        dev_criteria,
        dependency_criteria,
        notes,
    })
}

/// The criteria for dependencies, by their names.
fn read_dependencies(alloc: Global, document: &Table) -> Result<DependencyCriteria, Refusal>
    ensures { Gives (λ d. d) (dependencies_told (table_view document.now)) result }
{
    let none = DependencyCriteria::new(alloc);
    match table_at(alloc, COMMAND, document, DEPENDENCY_CRITERIA)? {
        Some(table) => each_member(alloc, &ReadDependencyCriteria {}, none, table),
        None => Ok(none),
    }
}

/// Reads the criteria for dependencies, one after the other.
#[derive(Drop)]
struct ReadDependencyCriteria {}

impl ReadMember for ReadDependencyCriteria {
    type Found = DependencyCriteria;

    ghost told = { λ r. next_dependency };

    fn read(
        &self,
        alloc: Global,
        found: DependencyCriteria,
        key: &str,
        value: &Value,
    ) -> Result<DependencyCriteria, Refusal> {
        let name = PackageName::parse(alloc, key)?;
        let criteria = read_names(alloc, DEPENDENCY_CRITERIA, key, value)?;
        let mut found = found;
        found.insert(name, criteria)?;
        Ok(found)
    }
}
