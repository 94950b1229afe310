//! Tables by name, such as `[imports.mozilla]`.
ghost use Rattle.toml.specs.View.{table_view, view};
ghost use Rattle.vet_base.specs.Gives.{Gives};
ghost use Rattle.vet_files.specs.Lists.{Reading, named_table, named_tables, next_named};

use crate::field::fault;
use crate::found::Found;
use crate::keys::TOP;
use crate::listed::Listed;
use crate::read::document::table_at;
use crate::read::package_tables::path_below;
use crate::read::walk::{ReadMember, each_member};
use std::alloc::Global;
use toml::{Table, Value};
use vet_base::name::Name;
use vet_base::refusal::Refusal;

/// A table by name, with its path.
#[derive(Drop)]
pub(crate) struct NamedTable<'a> {
    pub(crate) name: Name,
    pub(crate) path: &'a str,
    pub(crate) table: &'a Table,
}

/// Reads a table by name.
pub(crate) trait ReadNamed {
    /// The value of such a table.
    type Item: Drop;

    /// The result of reading a table with a name and a path.
    ghost told: { Self → Reading Self.Item };

    /// Reads the table.
    fn read(&self, alloc: Global, at: NamedTable<'_>) -> Result<Found<Option<Self::Item>>, Refusal>
        ensures { Gives (λ f. f) (told self.now at.entry.name at.entry.path.now (table_view at.entry.table.now))
            result };
}

/// Reads the tables of a table, one after the other.
#[derive(Drop)]
struct NextNamed<'a, R: ReadNamed> {
    reader: &'a R,
    path: &'a str,
}

impl<R: ReadNamed> ReadMember for NextNamed<'_, R> {
    type Found = Found<Listed<R::Item>>;

    ghost told = { λ r. next_named (R.told r.reader.now) r.path.now };

    fn read(
        &self,
        alloc: Global,
        found: Found<Listed<R::Item>>,
        key: &str,
        value: &Value,
    ) -> Result<Found<Listed<R::Item>>, Refusal> {
        let Some(name) = Name::read(alloc, key)? else {
            return Err(fault(alloc, self.path, key));
        };
        let more = named_table(alloc, self.reader, self.path, name, value)?;
        Ok(found.with(more)?)
    }
}

/// Reads the table at a name.
pub(crate) fn named_table<R: ReadNamed>(
    alloc: Global,
    reader: &R,
    path: &str,
    name: Name,
    value: &Value,
) -> Result<Found<Option<R::Item>>, Refusal>
    ensures { Gives (λ f. f) (named_table (R.told reader.now) path.now name (view value.now)) result }
{
    let Some(table) = value.as_table() else {
        return Err(fault(alloc, path, name.as_str()));
    };
    let below = path_below(alloc, path, name.as_str())?;
    let path = below.as_str();
    reader.read(alloc, NamedTable { name, path, table })
}

/// Reads the tables at a key of a file, in the order of their names' bytes.
pub(crate) fn named_tables<R: ReadNamed>(
    alloc: Global,
    reader: &R,
    file: &Table,
    key: &str,
) -> Result<Found<Listed<R::Item>>, Refusal>
    ensures { Gives (λ f. f) (named_tables (R.told reader.now) key.now (table_view file.now)) result }
{
    let Some(table) = table_at(alloc, TOP, file, key)? else {
        return Ok(Found::nothing(alloc));
    };
    let next = NextNamed { reader, path: key };
    each_member(alloc, &next, Found::nothing(alloc), table)
}
