//! Tables by name, as they are written.
ghost use Rattle.std.specs.Prelude.{◌≡◌, All, IfOk, List, map, string_bytes, ℕ};
ghost use Rattle.toml.specs.Data.{Data};
ghost use Rattle.toml.specs.View.{table_view, view};
ghost use Rattle.vet_files.specs.Tables.{by_name};

use std::alloc::{AllocError, Global};
use toml::{Table, Value};

/// A name of a table, and the value at it.
#[derive(Drop)]
pub(crate) struct Member {
    pub(crate) name: String,
    pub(crate) value: Value,
}

/// Writes the value at one name of a table.
pub(crate) trait WriteMember {
    /// The type of the items that are written.
    type Item: Drop;

    /// The name at which an item is written.
    ghost name: { Self.Item → List ℕ };

    /// The TOML value that is written for an item.
    ghost written: { Self → Self.Item → Data };

    /// The fact that a written item is read back.
    ghost Reads: { Self → Self.Item → Type 0 };

    /// Writes an item.
    fn write(&self, alloc: Global, item: &Self::Item) -> Result<Member, AllocError>
        ensures name { IfOk result (λ m. string_bytes m.name ≡ name item.now) }
        ensures value { IfOk result (λ m. view m.value ≡ written self.now item.now) }
        ensures read { IfOk result (λ m. Reads self.now item.now) };
}

/// Writes each item at its name.
pub(crate) fn write_members<W: WriteMember>(
    alloc: Global,
    writer: &W,
    items: &[W::Item],
) -> Result<Table, AllocError>
    ensures table { IfOk result (λ t. table_view t
        ≡ by_name (map (λ x. (W.name x, W.written writer.now x)) items.now)) }
    ensures read { IfOk result (λ t. All (W.Reads writer.now) items.now) }
{
    let mut table = Table::new(alloc);
    'items: for item in items {
        let member = writer.write(alloc, item)?;
        table.insert(member.name, member.value)?;
    }
    Ok(table)
}
