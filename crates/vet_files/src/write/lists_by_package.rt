//! Lists of entries by package, as they are written.
ghost use Rattle.std.specs.Prelude.{◌≡◌, ◌&&◌, not, All, IfOk, OnOk, Some};
ghost use Rattle.std.specs.FinSet as set;
ghost use Rattle.toml.specs.Data.{array, push_item};
ghost use Rattle.toml.specs.View.{array_view, table_view, view};
ghost use Rattle.vet_files.specs.EntryTables.{is_listed, listed_entries, package_lists};
ghost use Rattle.vet_files.specs.ReadAgain.{ReadsEntry};
ghost use Rattle.vet_files.specs.ListAt.{items_in, list_at};
ghost use Rattle.vet_files.specs.Tables.{put_member};

use crate::write::entry_tables::entry_table;
use crate::write::put::put_value;
use crate::write::sections::Listing;
use std::alloc::{AllocError, Global};
use std::mem;
use toml::value::Array;
use toml::{Table, Value};
use vet_base::package_names::PackageNames;
use vet_entries::entry::Entry;

/// The table of the entries of a listing, less those of excluded packages: at each package's name the list of
/// its entries, in their order.
pub(crate) fn package_lists(
    alloc: Global,
    which: Listing,
    exclude: &PackageNames,
    entries: &[Entry],
) -> Result<Table, AllocError>
    ensures table { IfOk result (λ t. table_view t ≡ package_lists (listed_entries which exclude.now entries.now)) }
    ensures read { IfOk result (λ t. All ReadsEntry (listed_entries which exclude.now entries.now)) }
{
    let mut table = Table::new(alloc);
    'entries: for entry in entries {
        if is_written(which, exclude, entry) {
            let written = entry_table(alloc, entry)?;
            push_at(
                alloc,
                &mut table,
                entry.package.as_str(),
                Value::Table(written),
            )?;
        }
    }
    Ok(table)
}

/// The items of a list, or none if the value is not a list.
fn array_of(alloc: Global, value: Value) -> Array
    ensures { array_view result ≡ items_in (Some (view value)) }
{
    match value {
        Value::Array(items) => items,
        _ => Vec::new(alloc),
    }
}

/// Puts a value at the end of a list. If there is another value in place of the list, it becomes a list of one item.
fn push(alloc: Global, list: &mut Value, value: Value) -> Result<(), AllocError>
    ensures { OnOk result (view list.new ≡ array (push_item (items_in (Some (view list.old))) (view value))) }
{
    // The list is moved out while it grows, and the value in its place does not matter.
    let mut items = array_of(alloc, mem::replace(list, Value::Boolean(false)));
    items.push(value)?;
    *list = Value::Array(items);
    Ok(())
}

/// Puts a value at the end of the list at a key, or begins a list if there is none.
fn push_at(alloc: Global, table: &mut Table, key: &str, value: Value) -> Result<(), AllocError>
    ensures { OnOk result (table_view table.new
        ≡ put_member key.now (array (push_item (list_at key.now (table_view table.old)) (view value)))
        (table_view table.old)) }
{
    if let Some(list) = table.get_mut(key) {
        return push(alloc, list, value);
    }
    let mut items = Vec::new(alloc);
    items.push(value)?;
    put_value(alloc, table, key, Value::Array(items))
}

/// Whether an entry is in a listing: it is of one of its kinds, and not of an excluded package.
fn is_written(which: Listing, exclude: &PackageNames, entry: &Entry) -> bool
    ensures { result ≡ (is_listed which entry.now.kind && not (set.contains exclude.now entry.now.«package»)) }
{
    which.holds(&entry.kind) && !exclude.contains(&entry.package)
}
