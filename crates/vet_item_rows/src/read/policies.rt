//! Reading the rows of policies.
ghost use Rattle.std.specs.Prelude.{◌≡◌, IfOk, map};
ghost use Rattle.vet_demand.specs.declared.policies.KeyedPolicy.{KeyedPolicy as PolicyValue};
ghost use Rattle.vet_item_rows.specs.HeldValues.{AreDependencies, IsKeyedPolicy};
ghost use Rattle.vet_item_rows.specs.ReadBack.{IsReadBack, IsWritten, Reads};
ghost use Rattle.vet_item_rows.specs.ReadValues.{dependency_column, dependency_of};
ghost use Rattle.vet_item_rows.specs.SettingRows.{policy_row};

use crate::read::columns::{flag, optional_names, optional_text, policy_key};
use crate::read::from_row::FromRow;
use crate::read::gathered::WithKey;
use crate::read::maps::map_items;
use crate::read::read_error::ReadError;
use std::alloc::{AllocError, Global};
use vet_base::name::PackageName;
use vet_base::names::Names;
use vet_demand::dependency_criteria::{DependencyCriteria, DependencyItem};
use vet_demand::policies::KeyedPolicy;
use vet_demand::policy::Policy;
use vet_tables::cell::Cell;
use vet_tables::sequence::Row;

impl FromRow for KeyedPolicy {
    ghost stands_for = { IsWritten IsKeyedPolicy policy_row };

    fn from_row(alloc: Global, row: &Row) -> Result<KeyedPolicy, ReadError> {
        let [Cell::Text(key), ..] = row.as_slice() else {
            return Err(ReadError::NotARegister);
        };
        Ok(KeyedPolicy {
            key: policy_key(alloc, key.as_str())?,
            policy: policy(alloc, row)?,
        })
    }
}

// What a row says except its key.
fn policy(alloc: Global, row: &Row) -> Result<Policy, ReadError>
    ensures { (p : PolicyValue) → IsWritten IsKeyedPolicy policy_row row.now p → Reads result p.policy }
{
    let [
        _,
        Cell::Int(as_crates),
        Cell::Blob(criteria),
        Cell::Blob(dev),
        Cell::Blob(dependency),
        Cell::Blob(notes),
    ] = row.as_slice()
    else {
        return Err(ReadError::NotARegister);
    };
    Ok(Policy {
        audit_as_crates_io: flag(*as_crates)?,
        criteria: optional_names(alloc, criteria.as_slice())?,
        dev_criteria: optional_names(alloc, dev.as_slice())?,
        dependency_criteria: dependencies(alloc, dependency.as_slice())?,
        notes: optional_text(alloc, notes.as_slice())?,
    })
}

// The criteria for dependencies in a column.
fn dependencies(alloc: Global, bytes: &[u8]) -> Result<DependencyCriteria, ReadError>
    ensures { IsReadBack (IsWritten AreDependencies dependency_column) bytes.now result }
{
    let filed = map_items::<PackageName>(alloc, bytes)?;
    Ok(DependencyCriteria::of(alloc, dependency_items(alloc, filed)?)?)
}

// Criteria that are filed under a dependency's name, as items.
fn dependency_items(
    alloc: Global,
    filed: Vec<WithKey<PackageName, Names>>,
) -> Result<Vec<DependencyItem>, AllocError>
    ensures { IfOk result (λ items. items.items ≡ map dependency_of filed.items) }
{
    let mut items = Vec::new(alloc);
    'filed: for one in filed {
        items.push(dependency(one))?;
    }
    Ok(items)
}

// Criteria that are filed under a dependency's name, as an item.
fn dependency(filed: WithKey<PackageName, Names>) -> DependencyItem
    ensures { result ≡ dependency_of filed }
{
    DependencyItem {
        package: filed.key,
        criteria: filed.item,
    }
}
