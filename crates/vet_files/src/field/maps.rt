//! Maps from names to sets of names.
ghost use Rattle.std.specs.Prelude.{◌≡◌};
ghost use Rattle.toml.specs.Data.{table};
ghost use Rattle.vet_files.specs.ConfigTable.{dependencies_table, mapped_table};
ghost use Rattle.vet_files.specs.Maps.{criteria_map, dependency_criteria, next_dependency, next_mapped};

use crate::field::{Field, fault};
use crate::read::package_tables::path_below;
use crate::read::walk::{ReadMember, each_member};
use crate::write::put::put;
use std::alloc::{AllocError, Global};
use toml::{Table, Value};
use vet_base::name::{Name, PackageName};
use vet_base::names::Names;
use vet_base::refusal::Refusal;
use vet_demand::dependency_criteria::DependencyCriteria;
use vet_entries::criteria_map::CriteriaMap;

/// Reads the own criteria that each criterion of a peer stands for, one after the other.
#[derive(Drop)]
struct ReadMapped<'a> {
    path: &'a str,
}

impl ReadMember for ReadMapped<'_> {
    type Found = CriteriaMap;

    ghost told = { λ r. next_mapped r.path.now };

    fn read(
        &self,
        alloc: Global,
        found: CriteriaMap,
        key: &str,
        value: &Value,
    ) -> Result<CriteriaMap, Refusal> {
        let Some(name) = Name::read(alloc, key)? else {
            return Err(fault(alloc, self.path, key));
        };
        let criteria: Names = Field::read(alloc, self.path, key, value)?;
        let mut found = found;
        found.insert(name, criteria)?;
        Ok(found)
    }
}

impl Field for CriteriaMap {
    ghost told = { criteria_map };

    ghost written = { λ m. table (mapped_table m) };

    fn read(alloc: Global, path: &str, key: &str, value: &Value) -> Result<CriteriaMap, Refusal> {
        let Some(table) = value.as_table() else {
            return Err(fault(alloc, path, key));
        };
        let below = path_below(alloc, path, key)?;
        let reader = ReadMapped {
            path: below.as_str(),
        };
        each_member(alloc, &reader, CriteriaMap::new(alloc), table)
    }

    fn write(&self, alloc: Global) -> Result<Value, AllocError> {
        let mut table = Table::new(alloc);
        'criteria: for item in self.items() {
            put(alloc, &mut table, item.name.as_str(), &item.criteria)?;
        }
        Ok(Value::Table(table))
    }
}

/// Reads the criteria along edges to dependencies, one after the other.
#[derive(Drop)]
struct ReadDependencies<'a> {
    path: &'a str,
}

impl ReadMember for ReadDependencies<'_> {
    type Found = DependencyCriteria;

    ghost told = { λ r. next_dependency r.path.now };

    fn read(
        &self,
        alloc: Global,
        found: DependencyCriteria,
        key: &str,
        value: &Value,
    ) -> Result<DependencyCriteria, Refusal> {
        let Some(name) = PackageName::read(alloc, key)? else {
            return Err(fault(alloc, self.path, key));
        };
        let criteria: Names = Field::read(alloc, self.path, key, value)?;
        let mut found = found;
        found.insert(name, criteria)?;
        Ok(found)
    }
}

impl Field for DependencyCriteria {
    ghost told = { dependency_criteria };

    ghost written = { λ d. table (dependencies_table d) };

    fn read(
        alloc: Global,
        path: &str,
        key: &str,
        value: &Value,
    ) -> Result<DependencyCriteria, Refusal> {
        let Some(table) = value.as_table() else {
            return Err(fault(alloc, path, key));
        };
        let below = path_below(alloc, path, key)?;
        let reader = ReadDependencies {
            path: below.as_str(),
        };
        each_member(alloc, &reader, DependencyCriteria::new(alloc), table)
    }

    fn write(&self, alloc: Global) -> Result<Value, AllocError> {
        let mut table = Table::new(alloc);
        'packages: for item in self.items() {
            put(alloc, &mut table, item.package.as_str(), &item.criteria)?;
        }
        Ok(Value::Table(table))
    }
}
