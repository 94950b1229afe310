//! The policies of a config file.
ghost use Rattle.std.specs.Prelude.{Ok};
ghost use Rattle.toml.specs.View.{table_view, view};
ghost use Rattle.vet_base.specs.Gives.{Gives};
ghost use Rattle.vet_demand.specs.Policies.{in_key_order};
ghost use Rattle.vet_files.specs.Config.{all_policies_told, dependency_policy_told, new_key_told, policies_told};
ghost use Rattle.vet_files.specs.Config.{policy_at, policy_told};
ghost use Rattle.vet_files.specs.GatheredPolicies.{next_gathered, policy_behind};

use crate::field::{fault, optional};
use crate::found::Found;
use crate::keys::{
    AUDIT_AS_CRATES_IO, CRITERIA, DEPENDENCY_CRITERIA, DEV_CRITERIA, NOTES, POLICY, TOP, TableKind,
    unknown_keys,
};
use crate::notices::Notices;
use crate::read::document::table_at;
use crate::read::gathered_policies::GatheredPolicies;
use crate::read::package_tables::path_below;
use crate::read::walk::{ReadMember, each_member};
use std::alloc::Global;
use toml::{Table, Value};
use vet_base::names::Names;
use vet_base::refusal::Refusal;
use vet_demand::dependency_criteria::DependencyCriteria;
use vet_demand::policies::Policies;
use vet_demand::policy::Policy;
use vet_demand::policy_key::PolicyKey;

/// The policies of a config file, in the order of their keys.
pub(crate) fn read_policies(alloc: Global, file: &Table) -> Result<Found<Policies>, Refusal>
    ensures { Gives (λ f. f) (policies_told (table_view file.now)) result }
{
    match table_at(alloc, TOP, file, POLICY)? {
        Some(table) => read_all(alloc, table),
        None => Ok(Found {
            content: Policies::new(alloc),
            notices: Notices::none(),
        }),
    }
}

/// The policies of a table: gathered in the order of the keys' texts, and then put in that of the keys.
fn read_all(alloc: Global, table: &Table) -> Result<Found<Policies>, Refusal>
    ensures { Gives (λ f. f) (all_policies_told (table_view table.now)) result }
{
    let none = Found {
        content: GatheredPolicies::new(alloc),
        notices: Notices::none(),
    };
    let found = each_member(alloc, &ReadPolicies {}, none, table)?;
    Ok(Found {
        content: found.content.in_key_order(alloc)?,
        notices: found.notices,
    })
}

/// Reads the policies of a file, one after the other.
#[derive(Drop)]
struct ReadPolicies {}

impl ReadMember for ReadPolicies {
    type Found = Found<GatheredPolicies>;

    ghost told = { λ r. next_gathered };

    fn read(
        &self,
        alloc: Global,
        found: Found<GatheredPolicies>,
        key: &str,
        value: &Value,
    ) -> Result<Found<GatheredPolicies>, Refusal> {
        let policy_key = new_key(alloc, &found.content, key)?;
        let more = read_policy_at(alloc, key, value)?;
        with_policy(found, policy_key, more)
    }
}

/// The key that a text is. Refuses a text that is not a key, or whose key an earlier policy has.
fn new_key(alloc: Global, held: &GatheredPolicies, text: &str) -> Result<PolicyKey, Refusal>
    ensures { Gives (λ k. k) (new_key_told text.now (in_key_order held.now)) result }
{
    let Some(key) = PolicyKey::read(alloc, text)? else {
        return Err(fault(alloc, POLICY, text));
    };
    if held.has(&key) {
        return Err(fault(alloc, POLICY, text));
    }
    Ok(key)
}

/// The policy whose table is at a key.
fn read_policy_at(alloc: Global, key: &str, value: &Value) -> Result<Found<Policy>, Refusal>
    ensures { Gives (λ f. f) (policy_at key.now (view value.now)) result }
{
    let Some(table) = value.as_table() else {
        return Err(fault(alloc, POLICY, key));
    };
    let path = path_below(alloc, POLICY, key)?;
    read_policy(alloc, path.as_str(), table)
}

/// The policies found, and one more.
fn with_policy(
    found: Found<GatheredPolicies>,
    key: PolicyKey,
    more: Found<Policy>,
) -> Result<Found<GatheredPolicies>, Refusal>
    ensures { Gives (λ f. f) (Ok (policy_behind found key more)) result }
{
    Ok(Found {
        content: found.content.with(key, more.content)?,
        notices: found.notices.and(more.notices)?,
    })
}

/// The policy of a table.
fn read_policy(alloc: Global, path: &str, table: &Table) -> Result<Found<Policy>, Refusal>
    ensures { Gives (λ f. f) (policy_told path.now (table_view table.now)) result }
{
    let audit_as_crates_io = optional(alloc, path, table, AUDIT_AS_CRATES_IO)?;
    let criteria = optional(alloc, path, table, CRITERIA)?;
    let dev_criteria = optional(alloc, path, table, DEV_CRITERIA)?;
    read_dependency_policy(
        alloc,
        path,
        table,
        audit_as_crates_io,
        criteria,
        dev_criteria,
    )
}

/// The policy of a table, given the values about its own package, which were read before.
fn read_dependency_policy(
    alloc: Global,
    path: &str,
    table: &Table,
    audit_as_crates_io: Option<bool>,
    criteria: Option<Names>,
    dev_criteria: Option<Names>,
) -> Result<Found<Policy>, Refusal>
    ensures { Gives (λ f. f)
        (dependency_policy_told path.now (table_view table.now) audit_as_crates_io criteria dev_criteria) result }
{
    let notices = unknown_keys(TableKind::Policy, table)?;
    let dependencies: Option<DependencyCriteria> = optional(
        alloc,
        path,
        table,
        DEPENDENCY_CRITERIA,
    )?;
    let notes = optional(alloc, path, table, NOTES)?;
    Ok(Found {
        notices,
        content: Policy {
            audit_as_crates_io,
            criteria,
            dev_criteria,
            dependency_criteria: dependencies.unwrap_or(DependencyCriteria::new(alloc)),
            notes,
        },
    })
}
