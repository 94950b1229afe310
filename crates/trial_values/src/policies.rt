//! Words that write a policy.
//!
//! `KEY [criteria=LIST] [dev-criteria=LIST] [dependency-criteria=MAP] [audit-as-crates-io=true|false] [notes=TEXT]`
//! write the policy of a package or of one version of it. LIST has names with commas between them. It is empty if
//! nothing follows the equals sign, which differs from no word at all. MAP is a list of `PACKAGE=LIST` with semicolons
//! between them.

use crate::fault::Fault;
use crate::name_lists::names_between_commas;
use std::alloc::Global;
use vet_base::name::PackageName;
use vet_base::refusal::Refusal;
use vet_base::text::Text;
use vet_demand::dependency_criteria::DependencyCriteria;
use vet_demand::policies::KeyedPolicy;
use vet_demand::policy::Policy;
use vet_demand::policy_key::PolicyKey;

/// The policy that some words write, with its key. Refused: what they are refused for, and `NoMemory`.
pub fn keyed_policy(alloc: Global, words: &[String]) -> Result<KeyedPolicy, Fault> {
    let [key, parts @ ..] = words else {
        return Err(Fault::NotUnderstood);
    };
    let key = PolicyKey::parse(alloc, key.as_str())?;
    let mut policy = silent_policy(alloc);
    for part in parts {
        set_part(alloc, &mut policy, part.as_str())?;
    }
    Ok(KeyedPolicy { key, policy })
}

// The policy that says nothing.
fn silent_policy(alloc: Global) -> Policy {
    Policy {
        audit_as_crates_io: None,
        criteria: None,
        dev_criteria: None,
        dependency_criteria: DependencyCriteria::new(alloc),
        notes: None,
    }
}

fn set_part(alloc: Global, policy: &mut Policy, part: &str) -> Result<(), Fault> {
    let Some((name, text)) = part.split_once('=') else {
        return Err(Fault::NotUnderstood);
    };
    match name {
        "criteria" => put(&mut policy.criteria, names_between_commas(alloc, text)),
        "dev-criteria" => put(&mut policy.dev_criteria, names_between_commas(alloc, text)),
        "dependency-criteria" => set_dependencies(alloc, policy, text),
        "audit-as-crates-io" => set_audited(policy, text),
        "notes" => put(&mut policy.notes, Text::parse(alloc, text)),
        _ => Err(Fault::NotUnderstood),
    }
}

// Sets a value to what was read.
fn put<T: Drop>(place: &mut Option<T>, read: Result<T, Refusal>) -> Result<(), Fault> {
    *place = Some(read?);
    Ok(())
}

fn set_audited(policy: &mut Policy, text: &str) -> Result<(), Fault> {
    policy.audit_as_crates_io = Some(truth(text)?);
    Ok(())
}

// Sets the criteria that a list `PACKAGE=LIST;..` gives by the names of dependencies, and no other ones.
fn set_dependencies(alloc: Global, policy: &mut Policy, list: &str) -> Result<(), Fault> {
    policy.dependency_criteria = DependencyCriteria::new(alloc);
    for item in list.split(';') {
        add_dependency(alloc, &mut policy.dependency_criteria, item)?;
    }
    Ok(())
}

fn add_dependency(
    alloc: Global,
    dependencies: &mut DependencyCriteria,
    item: &str,
) -> Result<(), Fault> {
    let Some((name, criteria)) = item.split_once('=') else {
        return Err(Fault::NotUnderstood);
    };
    let name = PackageName::parse(alloc, name)?;
    Ok(dependencies.insert(name, names_between_commas(alloc, criteria)?)?)
}

fn truth(text: &str) -> Result<bool, Fault> {
    match text {
        "true" => Ok(true),
        "false" => Ok(false),
        _ => Err(Fault::NotUnderstood),
    }
}
