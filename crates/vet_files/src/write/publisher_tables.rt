//! Publisher records as tables.
ghost use Rattle.std.specs.Prelude.{◌≡◌, All, IfOk};
ghost use Rattle.toml.specs.View.{array_view, table_view};
ghost use Rattle.vet_files.specs.ImportsTable.{publisher_items, publisher_table};
ghost use Rattle.vet_files.specs.ReadAgain.{ReadsPublisher};

use crate::keys::{USER_ID, USER_LOGIN, USER_NAME, VERSION, WHEN};
use crate::write::put::{put, put_some};
use std::alloc::{AllocError, Global};
use toml::value::Array;
use toml::{Table, Value};
use vet_entries::publisher::Publisher;

/// The table of a publisher record. It is read back as the record.
pub(crate) fn publisher_table(alloc: Global, publisher: &Publisher) -> Result<Table, AllocError>
    ensures table { IfOk result (λ t. table_view t ≡ publisher_table publisher.now) }
    ensures read { IfOk result (λ t. ReadsPublisher publisher.now) }
{
    let mut table = Table::new(alloc);
    put(alloc, &mut table, USER_ID, &publisher.user)?;
    put_some(alloc, &mut table, USER_LOGIN, publisher.login.as_ref())?;
    put_some(alloc, &mut table, USER_NAME, publisher.name.as_ref())?;
    put(alloc, &mut table, VERSION, &publisher.version)?;
    put(alloc, &mut table, WHEN, &publisher.day)?;
    Ok(table)
}

/// The tables of publisher records, in order. Each is read back as its record.
pub(crate) fn publisher_items(alloc: Global, records: &[Publisher]) -> Result<Array, AllocError>
    ensures items { IfOk result (λ v. array_view v ≡ publisher_items records.now) }
    ensures read { IfOk result (λ v. All ReadsPublisher records.now) }
{
    let mut tables = Vec::new(alloc);
    'records: for publisher in records {
        tables.push(Value::Table(publisher_table(alloc, publisher)?))?;
    }
    Ok(tables)
}
