//! The run that a stop is to meet: a register is made in files and given items, or opened.
ghost use Rattle.std.specs.Prelude.{◌≡◌, false};

use crate::stops::DiskStop;
use crate::stored::{StoreRun, refused_by_database};
use sqlite::{Connection, Error, FileStore, Files, Options};
use sqlite_disk::Disk;
use std::alloc::Global;
use std::io;
use trial_registers::items::NumberedItem;
use trial_registers::run::{How, give_all, print_end};
use trial_registers::runs::Runs;
use trial_registers::setting::limit_of;
use trial_values::ending::{Ending, print_refusal, refused};
use trial_values::fault::Fault;
use vet_base::refusal::Refusal;
use vet_graph::keeper::Keeper;
use vet_store::store::Store;

/// The statements that turn the tables of a register without a day into those of the first version.
const FIRST_VERSION: &str =
    "BEGIN; DROP TABLE today; DROP TABLE lasts; UPDATE meta SET version = 1; COMMIT";

/// How the files are opened. With a checkpoint, each commit first copies the log if it has a frame.
pub fn options(checkpoint: bool) -> Options {
    // only this program reads the log, so its salts need not be random
    let mut options = Options::new(0);
    if checkpoint {
        options.checkpoint_frames = 1;
    }
    options
}

/// Makes a register in files and gives it items. Prints the answers and what it holds at the end, and gives the files
/// back.
pub fn run_files<D: Disk + Drop, K: Keeper>(
    rt: &impl Print,
    alloc: Global,
    files: Files<D>,
    items: &[NumberedItem<'_>],
    how: How,
    stop: DiskStop,
) -> io::Result<(Ending, Files<D>)> {
    if !files.may_be_used() {
        let ending = refused(rt, &Fault::Refused(Refusal::StoreRefused))?;
        return Ok((ending, files));
    }
    match Connection::open_files(alloc, files, options(stop.checkpoint)) {
        Ok(conn) => run_connected::<D, K>(rt, alloc, conn, items, how, stop),
        Err((error, left)) => {
            let ending = refused_by_database(rt, error)?;
            Ok((ending, left.into_files()))
        }
    }
}

fn run_connected<D: Disk + Drop, K: Keeper>(
    rt: &impl Print,
    alloc: Global,
    conn: Connection<FileStore<D>>,
    items: &[NumberedItem<'_>],
    how: How,
    stop: DiskStop,
) -> io::Result<(Ending, Files<D>)>
    requires { conn.in_transaction ≡ false }
{
    match Store::<FileStore<D>, K>::create(alloc, conn, limit_of(items)) {
        Ok(store) => run_store::<D, K>(rt, alloc, store, items, how, stop),
        Err(refused_store) => {
            let (refusal, conn) = refused_store.into_parts();
            let ending = refused(rt, &Fault::Refused(refusal))?;
            Ok((ending, conn.into_store().close()))
        }
    }
}

fn run_store<D: Disk + Drop, K: Keeper>(
    rt: &impl Print,
    alloc: Global,
    store: Store<FileStore<D>, K>,
    items: &[NumberedItem<'_>],
    how: How,
    stop: DiskStop,
) -> io::Result<(Ending, Files<D>)> {
    let mut stored = StoreRun { store };
    let ending = give_all::<K, StoreRun<FileStore<D>, K>>(rt, alloc, &mut stored, items, how)?;
    let ending = print_end(rt, stored.shown(), true, ending)?;
    close_run(rt, stored.store.close(), ending, stop)
}

// Gives the files back, with tables of the first version if `stop` says so.
fn close_run<D: Disk + Drop>(
    rt: &impl Print,
    mut conn: Connection<FileStore<D>>,
    ending: Ending,
    stop: DiskStop,
) -> io::Result<(Ending, Files<D>)> {
    match to_first_version(&mut conn, stop) {
        Ok(()) => close_connected(rt, conn, ending, stop),
        Err(error) => {
            let ending = refused_by_database(rt, error)?;
            Ok((ending, conn.into_store().close()))
        }
    }
}

// Turns the tables into those of the first version if `stop` says so.
fn to_first_version<D: Disk + Drop>(
    conn: &mut Connection<FileStore<D>>,
    stop: DiskStop,
) -> Result<(), Error> {
    if stop.first_version {
        conn.execute_batch(FIRST_VERSION)
    } else {
        Ok(())
    }
}

// Gives the files back. If the log is to be copied, closes them before.
fn close_connected<D: Disk + Drop>(
    rt: &impl Print,
    conn: Connection<FileStore<D>>,
    ending: Ending,
    stop: DiskStop,
) -> io::Result<(Ending, Files<D>)> {
    if !stop.checkpoint {
        return Ok((ending, conn.into_store().close()));
    }
    match conn.close_files() {
        Ok(files) => Ok((ending, files)),
        Err((error, store)) => {
            let ending = refused_by_database(rt, error)?;
            Ok((ending, store.close()))
        }
    }
}

/// Opens the register in files, prints the refusal if there is one, and gives the files back.
pub fn open_files<D: Disk + Drop, K: Keeper>(
    rt: &impl Print,
    alloc: Global,
    files: Files<D>,
) -> io::Result<Files<D>> {
    if !files.may_be_used() {
        print_refusal(rt, &Refusal::StoreRefused)?;
        return Ok(files);
    }
    match Connection::open_files(alloc, files, options(false)) {
        Ok(conn) => open_connected::<D, K>(rt, alloc, conn),
        Err((error, left)) => {
            refused_by_database(rt, error)?;
            Ok(left.into_files())
        }
    }
}

fn open_connected<D: Disk + Drop, K: Keeper>(
    rt: &impl Print,
    alloc: Global,
    conn: Connection<FileStore<D>>,
) -> io::Result<Files<D>>
    requires { conn.in_transaction ≡ false }
{
    match Store::<FileStore<D>, K>::open(alloc, conn) {
        Ok(store) => Ok(store.close().into_store().close()),
        Err(refused_store) => {
            let (refusal, conn) = refused_store.into_parts();
            print_refusal(rt, &refusal)?;
            Ok(conn.into_store().close())
        }
    }
}
