//! The files from which a demand is computed.

use crate::contents::BETWEEN_FILES;
use crate::project::stated_project;
use std::alloc::Global;
use trial_values::fault::Fault;
use trial_values::workspace::Workspace;
use vet_base::criteria_table::CriteriaTable;
use vet_base::keyed::Keyed;
use vet_demand::policies::KeyedPolicy;
use vet_demand::project::NamedProject;
use vet_files::audits_file::read_audits;
use vet_files::config_file::read_config;

/// What the files of a text state: an audits file, a config file, and dependency tables.
pub fn workspace_of(alloc: Global, text: &str) -> Result<Workspace, Fault> {
    let Some((audits, rest)) = text.split_once(BETWEEN_FILES) else {
        return Err(Fault::NotUnderstood);
    };
    let Some((config, tables)) = rest.split_once(BETWEEN_FILES) else {
        return Err(Fault::NotUnderstood);
    };
    let criteria = criteria_of(alloc, audits)?;
    let policies = policies_of(alloc, config)?;
    Ok(Workspace {
        criteria,
        policies,
        projects: projects_of(alloc, tables)?,
    })
}

fn criteria_of(alloc: Global, audits: &str) -> Result<CriteriaTable, Fault> {
    let found = read_audits(alloc, audits.as_bytes())?;
    let content = found.content;
    let criteria = content.criteria;
    Ok(CriteriaTable::of(alloc, criteria.into_vec())?)
}

fn policies_of(alloc: Global, config: &str) -> Result<Keyed<KeyedPolicy>, Fault> {
    let policies = listed_policies(alloc, config)?;
    Ok(Keyed::of(alloc, policies)?)
}

fn listed_policies(alloc: Global, config: &str) -> Result<Vec<KeyedPolicy>, Fault> {
    let found = read_config(alloc, config.as_bytes())?;
    copies_of(alloc, found.content.policies.as_slice())
}

fn copies_of<T: Clone + Drop>(alloc: Global, items: &[T]) -> Result<Vec<T>, Fault> {
    Ok(items.to_vec(alloc)?)
}

fn projects_of(alloc: Global, tables: &str) -> Result<Keyed<NamedProject>, Fault> {
    let mut projects = Keyed::new(alloc);
    for (place, table) in tables.split(BETWEEN_FILES).enumerate() {
        projects.insert(stated_project(alloc, place, table)?)?;
    }
    Ok(projects)
}
