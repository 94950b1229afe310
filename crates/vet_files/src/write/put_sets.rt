//! Sets put into tables, unless they are empty.
ghost use Rattle.std.specs.Prelude.{◌≡◌, OnOk};
ghost use Rattle.toml.specs.View.{table_view};
ghost use Rattle.vet_files.specs.Field.{names, texts};
ghost use Rattle.vet_files.specs.ReadAgain.{IsReadAs};
ghost use Rattle.vet_files.specs.Tables.{set_data, some_set, with_key};

use crate::write::put::put;
use std::alloc::{AllocError, Global};
use toml::Table;
use vet_base::names::Names;
use vet_base::texts::Texts;

/// Puts names at a key, if there are any.
pub(crate) fn put_names(
    alloc: Global,
    table: &mut Table,
    key: &str,
    value: &Names,
) -> Result<(), AllocError>
    ensures put { OnOk result (table_view table.new ≡ with_key (table_view table.old) key.now (some_set value.now)) }
    ensures read { OnOk result (IsReadAs names (set_data value.now) value.now) }
{
    if value.is_empty() {
        return Ok(());
    }
    put(alloc, table, key, value)
}

/// Puts texts at a key, if there are any.
pub(crate) fn put_texts(
    alloc: Global,
    table: &mut Table,
    key: &str,
    value: &Texts,
) -> Result<(), AllocError>
    ensures put { OnOk result (table_view table.new ≡ with_key (table_view table.old) key.now (some_set value.now)) }
    ensures read { OnOk result (IsReadAs texts (set_data value.now) value.now) }
{
    if value.is_empty() {
        return Ok(());
    }
    put(alloc, table, key, value)
}
