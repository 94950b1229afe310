//! The records of a config file as tables.
ghost use Rattle.std.specs.Prelude.{◌≡◌, IfOk, option_map};
ghost use Rattle.std.specs.Option.{option_copied};
ghost use Rattle.toml.specs.Data.{string, table};
ghost use Rattle.toml.specs.View.{table_view};
ghost use Rattle.vet_files.specs.Audits.{or_none};
ghost use Rattle.vet_files.specs.ConfigTable.{cargo_vet_table, dependencies_table, mapped_table, peer_table};
ghost use Rattle.vet_files.specs.ConfigTable.{policy_table};
ghost use Rattle.vet_files.specs.Field.{a_text};
ghost use Rattle.vet_files.specs.Maps.{or_no_dependencies, or_no_map};
ghost use Rattle.vet_files.specs.ReadAgain.{IsReadAs, ReadsPeer, ReadsPolicy};
ghost use Rattle.vet_files.specs.Tables.{list_data, some_list, unless_empty};

use crate::keys::{
    AUDIT_AS_CRATES_IO, CRITERIA, CRITERIA_MAP, DEPENDENCY_CRITERIA, DEV_CRITERIA, EXCLUDE, NOTES,
    URL, VERSION,
};
use crate::write::put::{put, put_some};
use std::alloc::{AllocError, Global};
use toml::Table;
use vet_base::package_names::PackageNames;
use vet_base::text::Text;
use vet_demand::dependency_criteria::DependencyCriteria;
use vet_demand::policies::KeyedPolicy;
use vet_demand::policy_key::key_text_reads_back;
use vet_entries::criteria_map::CriteriaMap;
use vet_entries::peer_settings::PeerSettings;

/// The table `cargo-vet`, which names the version of cargo-vet. It is read back as this version.
pub(crate) fn cargo_vet_table(alloc: Global, version: &Text) -> Result<Table, AllocError>
    ensures table { IfOk result (λ t. table_view t ≡ cargo_vet_table version.now) }
    ensures read { IfOk result (λ t. IsReadAs a_text (string version.now) version.now) }
{
    let mut table = Table::new(alloc);
    put(alloc, &mut table, VERSION, version)?;
    Ok(table)
}

/// The packages of a set, or `None` if it is empty.
fn some_packages(packages: &PackageNames) -> Option<&PackageNames>
    ensures written { option_map list_data (option_copied result) ≡ some_list packages.now }
    ensures value { or_none (option_copied result) ≡ packages.now }
{
    if packages.is_empty() {
        return None;
    }
    Some(packages)
}

/// A map from a peer's criteria, or `None` if it is empty.
fn some_mapped(map: &CriteriaMap) -> Option<&CriteriaMap>
    ensures written { option_map (λ m. table (mapped_table m)) (option_copied result)
        ≡ unless_empty (mapped_table map.now) }
    ensures value { or_no_map (option_copied result) ≡ map.now }
{
    if map.is_empty() {
        return None;
    }
    Some(map)
}

/// The table of a peer's settings. It is read back as these settings.
pub(crate) fn peer_table(alloc: Global, peer: &PeerSettings) -> Result<Table, AllocError>
    ensures table { IfOk result (λ t. table_view t ≡ peer_table peer.now) }
    ensures read { IfOk result (λ t. ReadsPeer peer.now) }
{
    // A reader accepts only a name here. The contract of this call says that it is one.
    let _ = peer.name.as_str();
    let mut table = Table::new(alloc);
    put_some(alloc, &mut table, CRITERIA_MAP, some_mapped(&peer.map))?;
    put_some(alloc, &mut table, EXCLUDE, some_packages(&peer.exclude))?;
    put(alloc, &mut table, URL, &peer.url)?;
    Ok(table)
}

/// The criteria along edges to dependencies, or `None` if there are none.
fn some_dependencies(criteria: &DependencyCriteria) -> Option<&DependencyCriteria>
    ensures written { option_map (λ d. table (dependencies_table d)) (option_copied result)
        ≡ unless_empty (dependencies_table criteria.now) }
    ensures value { or_no_dependencies (option_copied result) ≡ criteria.now }
{
    if criteria.is_empty() {
        return None;
    }
    Some(criteria)
}

/// The table of a policy. It is read back as this policy, and the text of its key as its key.
pub(crate) fn policy_table(alloc: Global, policy: &KeyedPolicy) -> Result<Table, AllocError>
    ensures table { IfOk result (λ t. table_view t ≡ policy_table policy.now.policy) }
    ensures read { IfOk result (λ t. ReadsPolicy policy.now) }
{
    key_text_reads_back(&policy.key);
    let held = &policy.policy;
    let dependencies = some_dependencies(&held.dependency_criteria);
    let mut table = Table::new(alloc);
    put_some(
        alloc,
        &mut table,
        AUDIT_AS_CRATES_IO,
        held.audit_as_crates_io.as_ref(),
    )?;
    put_some(alloc, &mut table, CRITERIA, held.criteria.as_ref())?;
    put_some(alloc, &mut table, DEPENDENCY_CRITERIA, dependencies)?;
    put_some(alloc, &mut table, DEV_CRITERIA, held.dev_criteria.as_ref())?;
    put_some(alloc, &mut table, NOTES, held.notes.as_ref())?;
    Ok(table)
}
