//! A run on a register in a database.
ghost use Rattle.std.specs.Prelude.{◌≡◌, false};

use sqlite::{Alter, Connection, Error, FileStore, Options};
use sqlite_disk::Disk;
use std::alloc::Global;
use std::io;
use trial_registers::items::NumberedItem;
use trial_registers::run::{How, give_all, print_end};
use trial_registers::runs::Runs;
use trial_registers::setting::limit_of;
use trial_values::ending::{Ending, refused};
use trial_values::fault::Fault;
use vet_base::refusal::Refusal;
use vet_graph::keeper::Keeper;
use vet_graph::touched::Touched;
use vet_register::command::{Command, Outcome};
use vet_register::register::Register;
use vet_store::refused::{Refused, refusal_of};
use vet_store::store::Store;

/// How the register in a file is opened.
#[derive(Clone, Copy)]
pub enum OpenMode {
    /// It is made there.
    Made,
    /// It is opened.
    Opened,
    /// It is made there, and closed and opened again after the last item.
    Reopened,
}

/// A store whose commands a run gives.
#[derive(Drop)]
pub struct StoreRun<S: Alter + Drop, K: Keeper> {
    pub store: Store<S, K>,
}

impl<S: Alter + Drop, K: Keeper> Runs<K> for StoreRun<S, K> {
    fn run_command(&mut self, alloc: Global, command: &Command) -> Result<Outcome, Refusal> {
        self.store.run(alloc, command)
    }

    fn run_commands(
        &mut self,
        alloc: Global,
        commands: &[Command],
    ) -> Result<Vec<Result<Outcome, Refusal>>, Refusal> {
        self.store.run_all(alloc, commands)
    }

    fn shown(&self) -> &Register<K> {
        self.store.register()
    }

    fn touched(&self) -> Option<&Touched> {
        None
    }
}

/// Makes or opens a register in a database, gives it items, prints the answers and what the register holds at the end,
/// and closes the database.
pub fn run_stored<D: Disk + Drop, K: Keeper>(
    rt: &impl Print,
    alloc: Global,
    conn: Connection<FileStore<D>>,
    items: &[NumberedItem<'_>],
    how: How,
    mode: OpenMode,
) -> io::Result<Ending>
    requires { conn.in_transaction ≡ false }
{
    let (ending, conn) = run_connected::<D, K>(rt, alloc, conn, items, how, mode)?;
    match conn {
        Some(conn) => closed(rt, conn.close(), ending),
        None => Ok(ending),
    }
}

// How a run ends, once its database was closed.
fn closed(rt: &impl Print, closed: Result<(), Error>, ending: Ending) -> io::Result<Ending> {
    match closed {
        Ok(()) => Ok(ending),
        Err(error) => refused_by_database(rt, error),
    }
}

/// Prints the refusal of an error of the database, with which a run ends.
pub fn refused_by_database(rt: &impl Print, error: Error) -> io::Result<Ending> {
    refused(rt, &Fault::Refused(refusal_of(error)))
}

// A run over a connection. If it has no register, the connection is dropped and nothing is written; otherwise it is
// given back.
fn run_connected<D: Disk + Drop, K: Keeper>(
    rt: &impl Print,
    alloc: Global,
    conn: Connection<FileStore<D>>,
    items: &[NumberedItem<'_>],
    how: How,
    mode: OpenMode,
) -> io::Result<(Ending, Option<Connection<FileStore<D>>>)>
    requires { conn.in_transaction ≡ false }
{
    match store_of::<FileStore<D>, K>(alloc, conn, items, mode) {
        Ok(store) => run_store::<D, K>(rt, alloc, store, items, how, mode),
        Err(refused_store) => {
            let (refusal, _conn) = refused_store.into_parts();
            Ok((refused(rt, &Fault::Refused(refusal))?, None))
        }
    }
}

fn run_store<D: Disk + Drop, K: Keeper>(
    rt: &impl Print,
    alloc: Global,
    store: Store<FileStore<D>, K>,
    items: &[NumberedItem<'_>],
    how: How,
    mode: OpenMode,
) -> io::Result<(Ending, Option<Connection<FileStore<D>>>)> {
    let mut stored = StoreRun { store };
    let ending = give_all::<K, StoreRun<FileStore<D>, K>>(rt, alloc, &mut stored, items, how)?;
    match at_the_end::<D, K>(alloc, stored.store, mode) {
        Ok(store) => {
            let ending = print_end(rt, store.register(), true, ending)?;
            Ok((ending, Some(store.close())))
        }
        Err(refusal) => Ok((refused(rt, &Fault::Refused(refusal))?, None)),
    }
}

// The store once all items are given.
fn at_the_end<D: Disk + Drop, K: Keeper>(
    alloc: Global,
    store: Store<FileStore<D>, K>,
    mode: OpenMode,
) -> Result<Store<FileStore<D>, K>, Refusal> {
    match mode {
        OpenMode::Reopened => reopened::<D, K>(alloc, store),
        _ => Ok(store),
    }
}

// Closes a store and opens it again on its connection, and then by its files. One that is shut stays as it is.
fn reopened<D: Disk + Drop, K: Keeper>(
    alloc: Global,
    store: Store<FileStore<D>, K>,
) -> Result<Store<FileStore<D>, K>, Refusal> {
    if store.is_shut() {
        return Ok(store);
    }
    match store.reopen(alloc) {
        Ok(store) => reopened_files::<D, K>(alloc, store),
        Err(refused_store) => {
            let (refusal, _conn) = refused_store.into_parts();
            Err(refusal)
        }
    }
}

fn reopened_files<D: Disk + Drop, K: Keeper>(
    alloc: Global,
    store: Store<FileStore<D>, K>,
) -> Result<Store<FileStore<D>, K>, Refusal> {
    // only this program reads the log, so its salts need not be random
    match store.reopen_files(alloc, Options::new(0)) {
        Ok(store) => Ok(store),
        Err(not_reopened) => {
            let (refusal, _remains) = not_reopened.into_parts();
            Err(refusal)
        }
    }
}

fn store_of<S: Alter + Drop, K: Keeper>(
    alloc: Global,
    conn: Connection<S>,
    items: &[NumberedItem<'_>],
    mode: OpenMode,
) -> Result<Store<S, K>, Refused<S>>
    requires { conn.in_transaction ≡ false }
{
    match mode {
        OpenMode::Opened => Store::open(alloc, conn),
        _ => Store::create(alloc, conn, limit_of(items)),
    }
}
