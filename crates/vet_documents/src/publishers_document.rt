//! The document of the command that sets publisher records.
ghost use Rattle.std.specs.Prelude.{◌≡◌, IfErr, IfOk, string_bytes};
ghost use Rattle.toml.specs.View.{table_view, view};
ghost use Rattle.vet_base.specs.Gives.{Gives};
ghost use Rattle.vet_documents.specs.PublishersDocument.{next_record, record_at, record_path, record_told};
ghost use Rattle.vet_documents.specs.PublishersDocument.{records_told, set_publishers_told};
ghost use Rattle.vet_files.specs.Field.{required};
ghost use Rattle.vet_files.specs.Publishers.{in_order};

use crate::document_field::{day_at, word_at};
use crate::document_keys::{COMMAND, PACKAGE, RECORDS, refuse_others};
use std::alloc::{AllocError, Global};
use toml::{Table, Value};
use vet_base::refusal::Refusal;
use vet_entries::publisher::Publisher;
use vet_entries::publishers::Publishers;
use vet_files::field::{fault, optional, required, value_at};
use vet_files::keys::{USER_ID, USER_LOGIN, USER_NAME, VERSION, WHEN};
use vet_files::listed::Listed;
use vet_files::read::walk::{ReadItem, each_item};
use vet_register::command::Action;

/// Reads the command that sets the publisher records of a package.
pub(crate) fn read_set_publishers(alloc: Global, document: &Table) -> Result<Action, Refusal>
    ensures { Gives (λ action. action) (set_publishers_told (table_view document.now)) result }
{
    let package = word_at(alloc, COMMAND, document, PACKAGE)?;
    let records = read_records(alloc, document)?;
    refuse_others(alloc, COMMAND, document, &[COMMAND, PACKAGE, RECORDS])?;
    let publishers = sorted(alloc, records.into_vec())?;
    Ok(Action::SetPublishers(package, publishers))
}

/// The records of a document, in their order.
fn read_records(alloc: Global, document: &Table) -> Result<Listed<Publisher>, Refusal>
    ensures { Gives (λ l. l) (required records_told COMMAND.now RECORDS.now (table_view document.now)) result }
{
    let Some(value) = value_at(document, RECORDS) else {
        return Err(fault(alloc, COMMAND, RECORDS));
    };
    match value.as_array() {
        Some(items) => each_item(alloc, &ReadRecords {}, Listed::new(alloc), items),
        None => Err(fault(alloc, COMMAND, RECORDS)),
    }
}

/// The publishers of some records: in order, each once.
fn sorted(alloc: Global, records: Vec<Publisher>) -> Result<Publishers, Refusal>
    ensures value { IfOk result (λ p. p ≡ in_order records.items) }
    ensures memory { IfErr result (λ e. e ≡ Refusal.NoMemory) }
{
    Publishers::of(alloc, records)
}

/// Reads the records of a list, one after the other.
#[derive(Drop)]
struct ReadRecords {}

impl ReadItem for ReadRecords {
    type Found = Listed<Publisher>;

    ghost told = { λ r. next_record };

    fn read(
        &self,
        alloc: Global,
        found: Listed<Publisher>,
        place: usize,
        value: &Value,
    ) -> Result<Listed<Publisher>, Refusal> {
        let record = read_record_at(alloc, place, value)?;
        Ok(found.with(Some(record))?)
    }
}

/// The record at a place of the list. A value that is not a table is a fault of the list.
fn read_record_at(alloc: Global, place: usize, value: &Value) -> Result<Publisher, Refusal>
    ensures { Gives (λ p. p) (record_at place (view value.now)) result }
{
    let Some(table) = value.as_table() else {
        return Err(fault(alloc, COMMAND, RECORDS));
    };
    let path = record_path(alloc, place)?;
    read_record(alloc, path.as_str(), table)
}

/// The path of a record.
fn record_path(alloc: Global, place: usize) -> Result<String, AllocError>
    ensures { IfOk result (λ s. string_bytes s ≡ record_path place) }
{
    format!(in alloc; "records[{place}]")
}

/// The record that a table states.
fn read_record(alloc: Global, path: &str, table: &Table) -> Result<Publisher, Refusal>
    ensures { Gives (λ p. p) (record_told path.now (table_view table.now)) result }
{
    let version = word_at(alloc, path, table, VERSION)?;
    let day = day_at(alloc, path, table, WHEN)?;
    let user = required(alloc, path, table, USER_ID)?;
    let login = optional(alloc, path, table, USER_LOGIN)?;
    let name = optional(alloc, path, table, USER_NAME)?;
    refuse_others(
        alloc,
        path,
        table,
        &[VERSION, WHEN, USER_ID, USER_LOGIN, USER_NAME],
    )?;
    Ok(Publisher {
        version,
        user,
        day,
        login,
        name,
    })
}
