//! What a stop leaves in the files.
ghost use Rattle.std.specs.Prelude.{◌≡◌, false};

use crate::stops::DiskStop;
use crate::stops::files::{ALL_CALLS, StoppingFile, StoppingFiles, copies_of};
use crate::stops::run::options;
use crate::stored::refused_by_database;
use sqlite::{Connection, FileStore, Files};
use sqlite_disk::{Crash, Disk};
use std::alloc::Global;
use std::io;
use trial_registers::items::NumberedItem;
use trial_registers::run::print_end;
use trial_registers::setting::limit_of;
use trial_values::ending::{Ending, print_refusal, refused};
use trial_values::fault::Fault;
use vet_base::refusal::Refusal;
use vet_graph::keeper::Keeper;
use vet_store::store::Store;
use vet_tables::find::version_of;
use vet_tables::version::TablesVersion;

/// Prints whether the stop was met, and what the files hold once they are opened again.
pub fn print_left<K: Keeper>(
    rt: &impl Print,
    alloc: Global,
    files: StoppingFiles,
    items: &[NumberedItem<'_>],
    stop: DiskStop,
) -> io::Result<Ending> {
    print_stop(rt, files.log.calls(), files.db.calls(), stop)?;
    match print_written::<K>(rt, alloc, &files, items)? {
        Ending::Whole => print_synced::<K>(rt, alloc, files, items),
        ending => Ok(ending),
    }
}

fn print_stop(rt: &impl Print, log: u64, db: u64, stop: DiskStop) -> io::Result<()> {
    if stop.is_met(log, db) {
        println!(rt; "stop met log {log} db {db}")
    } else {
        println!(rt; "no stop log {log} db {db}")
    }
}

fn print_written<K: Keeper>(
    rt: &impl Print,
    alloc: Global,
    files: &StoppingFiles,
    items: &[NumberedItem<'_>],
) -> io::Result<Ending> {
    println!(rt; "as written")?;
    match copies_of(alloc, files, ALL_CALLS) {
        Ok(copies) => print_held::<StoppingFile, K>(rt, alloc, copies, items),
        Err(refusal) => refused(rt, &Fault::Refused(refusal)),
    }
}

fn print_synced<K: Keeper>(
    rt: &impl Print,
    alloc: Global,
    mut files: StoppingFiles,
    items: &[NumberedItem<'_>],
) -> io::Result<Ending> {
    println!(rt; "as synced")?;
    files.log.crash();
    files.db.crash();
    print_held::<StoppingFile, K>(rt, alloc, files, items)
}

// Prints what is held in files. If that is no register, one is made.
fn print_held<D: Disk + Drop, K: Keeper>(
    rt: &impl Print,
    alloc: Global,
    files: Files<D>,
    items: &[NumberedItem<'_>],
) -> io::Result<Ending> {
    if !files.may_be_used() {
        return refused(rt, &Fault::Refused(Refusal::StoreRefused));
    }
    match Connection::open_files(alloc, files, options(false)) {
        Ok(conn) => print_opened::<D, K>(rt, alloc, conn, items),
        Err((error, _files)) => refused_by_database(rt, error),
    }
}

fn print_opened<D: Disk + Drop, K: Keeper>(
    rt: &impl Print,
    alloc: Global,
    conn: Connection<FileStore<D>>,
    items: &[NumberedItem<'_>],
) -> io::Result<Ending>
    requires { conn.in_transaction ≡ false }
{
    print_version(rt, version_of(conn.schema()))?;
    match Store::<FileStore<D>, K>::open(alloc, conn) {
        Ok(store) => print_end(rt, store.register(), true, Ending::Whole),
        Err(refused_store) => {
            let (refusal, conn) = refused_store.into_parts();
            print_refusal(rt, &refusal)?;
            match refusal {
                Refusal::NotARegister => print_made::<D, K>(rt, alloc, conn, items),
                _ => Ok(Ending::Refused),
            }
        }
    }
}

// Prints a line if the tables are of the first version.
fn print_version(rt: &impl Print, version: Option<TablesVersion>) -> io::Result<()> {
    match version {
        Some(TablesVersion::First) => println!(rt; "first version"),
        _ => Ok(()),
    }
}

fn print_made<D: Disk + Drop, K: Keeper>(
    rt: &impl Print,
    alloc: Global,
    conn: Connection<FileStore<D>>,
    items: &[NumberedItem<'_>],
) -> io::Result<Ending>
    requires { conn.in_transaction ≡ false }
{
    match Store::<FileStore<D>, K>::create(alloc, conn, limit_of(items)) {
        Ok(store) => print_end(rt, store.register(), true, Ending::Whole),
        Err(refused_store) => {
            let (refusal, _conn) = refused_store.into_parts();
            refused(rt, &Fault::Refused(refusal))
        }
    }
}
