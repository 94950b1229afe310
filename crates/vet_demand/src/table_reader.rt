//! The reader of dependency tables.
ghost use Rattle.std.specs.Prelude.{◌≡◌, ◌<◌, ◌+◌, ◌^◌, ℕ, suc, List, IfOk, IfErr, length};
ghost use Rattle.csv.specs.Reading.{default_config, error_kind, records, strip_bom};
ghost use Rattle.csv.specs.Records.{fields_of};
ghost use Rattle.vet_base.specs.Gives.{Gives};
ghost use Rattle.vet_demand.specs.DependencyTable.{fields_told, project_of_bytes, records_told, table_told};
ghost use Rattle.vet_demand.specs.RecordsLeft.{FirstIs, RecordsLeft, refusal_for};

use crate::dependency_record::{DependencyRecord, is_header};
use crate::dependency_table::DependencyTable;
use crate::placing::project_of;
use crate::project::Project;
use csv::{ByteRecord, Error, ErrorKind, Reader, ReaderBuilder};
use std::alloc::Global;
use vet_base::refusal::Refusal;

// The byte order mark in UTF-8, which may precede a text.
const MARK: [u8; 3] = [0xEF, 0xBB, 0xBF];

/// Reads the project that a dependency table states. The table is CSV (RFC 4180), and its first record is
/// `what,n,p,q,r`. A record `node,N,NAME,VERSION,PARTY` states a node, and N counts the node records before it; a
/// record `edge,FROM,TO,KIND,` states that one node depends on another. Tables that differ only in numbering state the
/// same project.
///
/// Refused, with the number of the record: `CsvRefused` if it has another form, or if an earlier record gave its node
/// with the same party (root and first count as the same), at 1 if there is no header and at 2 if there is no node;
/// `TwoParties` if an earlier record gave its node with the other party; `UnknownNode` if its edge names a number that
/// no node has. Refused too: `TooLarge` for nodes or edges past their limit, and `NoMemory`. The first record at fault
/// is reported, a table without nodes after the last record, and `UnknownNode` after that.
pub fn read_project(alloc: Global, bytes: &[u8]) -> Result<Project, Refusal>
    ensures { Gives (λ p. p) (project_of_bytes bytes.now) result }
{
    let table = table_of(alloc, bytes)?;
    project_of(alloc, table)
}

// Reads the table that some bytes state.
fn table_of(alloc: Global, bytes: &[u8]) -> Result<DependencyTable, Refusal>
    ensures { Gives (λ t. t) (table_told (records default_config (strip_bom bytes.now))) result }
{
    let most = text_len(bytes);
    let mut reader = ReaderBuilder::new()
        .has_headers(false)
        .flexible(true)
        .from_reader(alloc, bytes);
    let mut row = ByteRecord::new(alloc);
    read_table(alloc, &mut reader, &mut row, most)
}

// Reads the header that a reader gives, and at most `most` records after it.
fn read_table(
    alloc: Global,
    reader: &mut Reader<&[u8]>,
    row: &mut ByteRecord,
    most: usize,
) -> Result<DependencyTable, Refusal>
    requires { most + 2 < 2 ^ 64 }
    ensures { (rows : List (List (List ℕ))) → RecordsLeft reader.old (suc most) rows
        → Gives (λ t. t) (table_told rows) result }
{
    let found = next_row(reader, row, 1)?;
    if !found || !is_header(row) {
        return Err(Refusal::CsvRefused(1));
    }
    let mut table = DependencyTable::new(alloc);
    read_rows(alloc, reader, row, most, &mut table)?;
    Ok(table)
}

// Adds what the records after the header state.
fn read_rows(
    alloc: Global,
    reader: &mut Reader<&[u8]>,
    row: &mut ByteRecord,
    most: usize,
    table: &mut DependencyTable,
) -> Result<(), Refusal>
    requires { most + 2 < 2 ^ 64 }
    ensures { (rows : List (List (List ℕ))) → RecordsLeft reader.old most rows
        → Gives (λ _. table.new) (records_told 2 table.old rows) result }
{
    'rows: for turn in 0..most {
        let number = turn as u64 + 2;
        let found = next_row(reader, row, number)?;
        if !found {
            return Ok(());
        }
        read_row(alloc, number, row, table)?;
    }
    Ok(())
}

// Adds what a record states.
fn read_row(
    alloc: Global,
    number: u64,
    row: &ByteRecord,
    table: &mut DependencyTable,
) -> Result<(), Refusal>
    ensures { Gives (λ _. table.new) (fields_told number table.old (fields_of row.now)) result }
{
    let Some(found) = DependencyRecord::read(alloc, number, row)? else {
        return Err(Refusal::CsvRefused(number));
    };
    table.take(number, found)
}

// Reads the record of this number, and returns whether there is one.
fn next_row(reader: &mut Reader<&[u8]>, row: &mut ByteRecord, number: u64) -> Result<bool, Refusal>
    ensures first { IfOk result (λ found. (most : ℕ) (rows : List (List (List ℕ)))
        → RecordsLeft reader.old (suc most) rows → FirstIs found (fields_of row.new) reader.new most rows) }
    ensures memory { IfErr result (λ e. (most : ℕ) (rows : List (List (List ℕ))) → RecordsLeft reader.old most rows
        → e ≡ Refusal.NoMemory) }
{
    match reader.read_byte_record(row) {
        Ok(found) => Ok(found),
        Err(error) => Err(refusal_of(&error, number)),
    }
}

// The refusal for an error of the reader. Bytes in memory give no error of their own.
fn refusal_of(error: &Error, number: u64) -> Refusal
    ensures { result ≡ refusal_for number (error_kind error.now) }
{
    match error.kind() {
        ErrorKind::Io(_) | ErrorKind::OutOfMemory => Refusal::NoMemory,
        _ => Refusal::CsvRefused(number),
    }
}

// The number of bytes after the byte order mark, if there is one.
fn text_len(bytes: &[u8]) -> usize
    ensures value { result ≡ length (strip_bom bytes.now) }
    ensures small { result + 2 < 2 ^ 64 }
{
    if bytes.starts_with(&MARK) {
        bytes.len() - 3
    } else {
        bytes.len()
    }
}
