//! A command whose rows are written, each part timed.
ghost use Rattle.std.specs.Prelude.{◌≡◌, false};
ghost use Rattle.vet_register.specs.Machine.{CommandValue};
ghost use Rattle.vet_register.specs.RegisterView.{IsPrepared};

use sqlite::{Alter, Connection};
use std::time::{Clock, Instant};
use trial_values::fault::Fault;
use vet_base::refusal::Refusal;
use vet_graph::keeper::Keeper;
use vet_register::change::{Change, Prepared};
use vet_register::command::{Command, Outcome};
use vet_register::register::Register;
use vet_rows::row_change::RowChange;
use vet_rows::row_changes::row_changes;
use vet_store::change::commit_changes;
use vet_tables::table_name::TableName;

/// The nanoseconds of a command's parts: until it is prepared, until its changes of rows are known, and until these are
/// committed; how many changes there are, and how many of them are of other tables than `standing` and `moves`.
#[derive(Clone, Copy)]
pub struct PartTimes {
    prepare: u128,
    rows: u128,
    write: u128,
    count: usize,
    others: usize,
}

/// Runs a command as a store does: it is prepared, its rows are written and then it is installed. Prints what it is,
/// the nanoseconds of its parts and of all of it, and how many rows it wrote.
pub fn run_written<S: Alter, K: Keeper>(
    rt: &(impl Clock + AllocGlobal + Print),
    conn: &mut Connection<S>,
    register: &mut Register<K>,
    what: &str,
    command: &Command,
) -> Result<Outcome, Fault>
    requires { conn.old.in_transaction ≡ false }
{
    let begun = Instant::now(rt)?;
    let (outcome, parts) = written(rt, conn, register, command, &begun)?;
    let whole = begun.elapsed(rt)?.as_nanos();
    let PartTimes {
        prepare,
        rows,
        write,
        count,
        others,
    } = parts;
    println!(rt; "{what} {prepare} {rows} {write} {whole} {count} {others}")?;
    Ok(outcome)
}

fn written<S: Alter, K: Keeper>(
    rt: &(impl Clock + AllocGlobal + Print),
    conn: &mut Connection<S>,
    register: &mut Register<K>,
    command: &Command,
    begun: &Instant,
) -> Result<(Outcome, PartTimes), Fault>
    requires { conn.old.in_transaction ≡ false }
{
    match register.prepare(rt.alloc(), command) {
        Err(refusal) => Err(Fault::Refused(refusal)),
        Ok(Prepared::Already(_)) => Err(Fault::NotUnderstood),
        Ok(Prepared::Change(change)) => match write(rt, conn, register, &change, begun) {
            Err(fault) => Err(fault),
            Ok(parts) => {
                let outcome = change.outcome();
                register.install(change);
                Ok((outcome, parts))
            }
        },
    }
}

// Writes the rows of a change that is prepared.
fn write<S: Alter, K: Keeper>(
    rt: &(impl Clock + AllocGlobal + Print),
    conn: &mut Connection<S>,
    register: &Register<K>,
    change: &Change<K>,
    begun: &Instant,
) -> Result<PartTimes, Fault>
    requires prepared { (command : CommandValue) × IsPrepared K.keeping register.now command change.now }
    requires autocommit { conn.old.in_transaction ≡ false }
{
    let prepare = begun.elapsed(rt)?.as_nanos();
    let begun = Instant::now(rt)?;
    let changes = row_changes(rt.alloc(), register, change)?;
    let rows = begun.elapsed(rt)?.as_nanos();
    let begun = Instant::now(rt)?;
    match commit_changes(rt.alloc(), conn, changes.as_slice()) {
        Ok(()) => Ok(PartTimes {
            prepare,
            rows,
            write: begun.elapsed(rt)?.as_nanos(),
            count: changes.len(),
            others: count_others(changes.as_slice()),
        }),
        Err(_) => Err(Fault::Refused(Refusal::StoreRefused)),
    }
}

// How many changes are of other tables than `standing` and `moves`.
fn count_others(changes: &[RowChange]) -> usize {
    let mut count = 0usize;
    for change in changes {
        if is_of_another(table_of(change)) {
            count = count.saturating_add(1);
        }
    }
    count
}

// The table that a change is of.
fn table_of(change: &RowChange) -> TableName {
    match change {
        RowChange::Put(table, _) => *table,
        RowChange::Drop(table, _) => *table,
        RowChange::Clear(table) => *table,
    }
}

// Whether a table is neither `standing` nor `moves`.
fn is_of_another(table: TableName) -> bool {
    match table {
        TableName::Standing | TableName::Moves => false,
        _ => true,
    }
}
