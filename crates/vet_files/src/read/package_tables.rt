//! Lists of tables by package, such as `[[audits.serde]]`.
ghost use Rattle.std.specs.Prelude.{◌≡◌, IfOk, IfErr, List, ℕ, Option, OnOk, string_bytes};
ghost use Rattle.toml.specs.Data.{Members};
ghost use Rattle.toml.specs.View.{table_view, view};
ghost use Rattle.vet_base.specs.Gives.{Gives, Told};
ghost use Rattle.vet_files.specs.declared.found.Found.{Found};
ghost use Rattle.vet_files.specs.Lists.{Reading, next_table, path_below, path_in_list, table_told, tables_of_package};

use crate::field::{fault, value_at};
use crate::found::Found;
use crate::listed::Listed;
use crate::read::walk::{ReadItem, each_item};
use std::alloc::{AllocError, Global};
use toml::{Table, Value};
use vet_base::name::PackageName;
use vet_base::refusal::Refusal;

/// One table of a package's list.
#[derive(Drop)]
pub(crate) struct PackageTable<'a> {
    pub(crate) package: &'a PackageName,
    pub(crate) path: &'a str,
    pub(crate) table: &'a Table,
}

/// Reads one table of a list.
pub(crate) trait ReadTable {
    /// The value of such a table.
    type Item: Drop;

    /// The result of reading a table: its value, or nothing if it is skipped.
    ghost told: { Self → Reading Self.Item };

    /// Reads the table.
    fn read(
        &self,
        alloc: Global,
        at: &PackageTable<'_>,
    ) -> Result<Found<Option<Self::Item>>, Refusal>
        ensures { Gives (λ f. f) (table_told (told self.now) at.now) result };
}

/// Reads the tables of one package's list, one after the other.
#[derive(Drop)]
struct NextTable<'a, R: ReadTable> {
    reader: &'a R,
    path: &'a str,
    package: &'a PackageName,
}

impl<R: ReadTable> ReadItem for NextTable<'_, R> {
    type Found = Found<Listed<R::Item>>;

    ghost told = { λ r. next_table (R.told r.reader.now) r.path.now r.«package».now };

    fn read(
        &self,
        alloc: Global,
        found: Found<Listed<R::Item>>,
        place: usize,
        value: &Value,
    ) -> Result<Found<Listed<R::Item>>, Refusal> {
        let name = self.package.as_str();
        let Some(table) = value.as_table() else {
            return Err(fault(alloc, self.path, name));
        };
        let path = path_in_list(alloc, self.path, name, place)?;
        let at = PackageTable {
            package: self.package,
            path: path.as_str(),
            table,
        };
        let more = self.reader.read(alloc, &at)?;
        Ok(found.with(more)?)
    }
}

/// The path of the value at a key of a table.
pub fn path_below(alloc: Global, path: &str, key: &str) -> Result<String, AllocError>
    ensures { IfOk result (λ s. string_bytes s ≡ path_below path.now key.now) }
{
    format!(in alloc; "{path}.{key}")
}

/// The path of a table in a list.
fn path_in_list(alloc: Global, path: &str, name: &str, place: usize) -> Result<String, AllocError>
    ensures { IfOk result (λ s. string_bytes s ≡ path_in_list path.now name.now place) }
{
    format!(in alloc; "{path}.{name}[{place}]")
}

/// Reads the tables of a package. The key of their list is the package's name.
pub(crate) fn tables_of_package<R: ReadTable>(
    alloc: Global,
    reader: &R,
    path: &str,
    key: &str,
    value: &Value,
) -> Result<Found<Listed<R::Item>>, Refusal>
    ensures { Gives (λ f. f) (tables_of_package (R.told reader.now) path.now key.now (view value.now)) result }
{
    let Some(package) = PackageName::read(alloc, key)? else {
        return Err(fault(alloc, path, key));
    };
    let Some(items) = value.as_array() else {
        return Err(fault(alloc, path, key));
    };
    let next = NextTable {
        reader,
        path,
        package: &package,
    };
    each_item(alloc, &next, Found::nothing(alloc), items)
}
