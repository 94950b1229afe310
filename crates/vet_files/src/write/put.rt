//! Values put into tables.
ghost use Rattle.std.specs.Prelude.{◌≡◌, Some, OnOk, option_map};
ghost use Rattle.std.specs.Option.{IfSome, option_copied};
ghost use Rattle.toml.specs.Data.{table};
ghost use Rattle.toml.specs.View.{table_view, view};
ghost use Rattle.vet_files.specs.ReadAgain.{IsReadAs};
ghost use Rattle.vet_files.specs.Tables.{unless_empty, with_key};

use crate::field::Field;
use std::alloc::{AllocError, Global};
use toml::{Table, Value};

/// Puts a TOML value at a key.
pub(crate) fn put_value(
    alloc: Global,
    table: &mut Table,
    key: &str,
    value: Value,
) -> Result<(), AllocError>
    ensures { OnOk result (table_view table.new ≡ with_key (table_view table.old) key.now (Some (view value))) }
{
    table.insert(String::from_str(alloc, key)?, value)?;
    Ok(())
}

/// Puts a value at a key that must have one.
pub(crate) fn put<V: Field>(
    alloc: Global,
    table: &mut Table,
    key: &str,
    value: &V,
) -> Result<(), AllocError>
    ensures put { OnOk result (table_view table.new
        ≡ with_key (table_view table.old) key.now (Some (V.written value.now))) }
    ensures read { OnOk result (IsReadAs V.told (V.written value.now) value.now) }
{
    let written = value.write(alloc)?;
    put_value(alloc, table, key, written)
}

/// Puts a value at a key that may have one, if there is a value.
pub(crate) fn put_some<V: Field>(
    alloc: Global,
    table: &mut Table,
    key: &str,
    value: Option<&V>,
) -> Result<(), AllocError>
    ensures put { OnOk result (table_view table.new
        ≡ with_key (table_view table.old) key.now (option_map (λ v. V.written v) (option_copied value.entry))) }
    ensures read { OnOk result (IfSome (option_copied value.entry) (λ v. IsReadAs V.told (V.written v) v)) }
{
    match value {
        Some(value) => put(alloc, table, key, value),
        None => Ok(()),
    }
}

/// Puts a table at a key, unless it is empty.
pub(crate) fn put_unless_empty(
    alloc: Global,
    table: &mut Table,
    key: &str,
    inner: Table,
) -> Result<(), AllocError>
    ensures { OnOk result (table_view table.new
        ≡ with_key (table_view table.old) key.now (unless_empty (table_view inner))) }
{
    if inner.is_empty() {
        return Ok(());
    }
    put_value(alloc, table, key, Value::Table(inner))
}
