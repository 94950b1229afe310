//! Commands to a register in a file, whose parts are timed; and the register that is opened again.

use crate::written::run_written;
use sqlite::{Alter, Connection, FileStore};
use sqlite_disk::Disk;
use std::alloc::Global;
use std::time::{Clock, Instant};
use trial_times::commands::{add_other, drop_entry, import_peer, load_table, set_peer};
use trial_times::contents::{BETWEEN_FILES, contents_of};
use trial_times::files::tables_before;
use trial_values::fault::Fault;
use vet_base::limits::MOST_MOVES;
use vet_base::refusal::Refusal;
use vet_graph::keeper::Keeper;
use vet_register::command::{Command, Outcome};
use vet_register::register::Register;
use vet_store::refused::Refused;
use vet_store::store::Store;

/// Makes a register in a file, loads the tables of a text in turn as one project, imports each of its files, and adds
/// an entry and drops it in each round. For each command it prints what it is, the nanoseconds of its parts and how
/// many rows it writes.
pub fn run_rounds<D: Disk + Drop, K: Keeper>(
    rt: &(impl Clock + AllocGlobal + Print),
    conn: Connection<FileStore<D>>,
    rounds: usize,
    text: &str,
) -> Result<(), Fault> {
    let (tables, files) = tables_before(text)?;
    let loads = loads_of(rt.alloc(), tables)?;
    let imports = imports_of(rt.alloc(), files)?;
    let mut conn = made::<_, K>(rt.alloc(), conn)?;
    run_commands::<_, K>(rt, &mut conn, loads.as_slice(), imports.as_slice(), rounds)?;
    match conn.close() {
        Ok(()) => Ok(()),
        Err(_) => Err(Fault::Refused(Refusal::StoreRefused)),
    }
}

// The commands that load the tables of a text in turn, all as one project. An empty text has none.
fn loads_of(alloc: Global, text: &str) -> Result<Vec<Command>, Fault> {
    let mut loads = Vec::new(alloc);
    if text.is_empty() {
        return Ok(loads);
    }
    for table in text.split(BETWEEN_FILES) {
        loads.push(load_table(alloc, 0, table)?)?;
    }
    Ok(loads)
}

/// The commands that import the files of a text.
pub fn imports_of(alloc: Global, text: &str) -> Result<Vec<Command>, Fault> {
    let mut imports = Vec::new(alloc);
    for content in contents_of(alloc, text)? {
        imports.push(import_peer(alloc, content)?)?;
    }
    Ok(imports)
}

// The tables of an empty register.
fn made<S: Alter + Drop, K: Keeper>(
    alloc: Global,
    conn: Connection<S>,
) -> Result<Connection<S>, Fault> {
    if !conn.is_autocommit() {
        return Err(Fault::NotUnderstood);
    }
    match Store::<S, K>::create(alloc, conn, MOST_MOVES) {
        Ok(store) => Ok(store.close()),
        Err(refused) => Err(fault_of(refused)),
    }
}

fn fault_of<S: Alter + Drop>(refused: Refused<S>) -> Fault {
    let (refusal, _conn) = refused.into_parts();
    Fault::Refused(refusal)
}

fn run_commands<S: Alter, K: Keeper>(
    rt: &(impl Clock + AllocGlobal + Print),
    conn: &mut Connection<S>,
    loads: &[Command],
    imports: &[Command],
    rounds: usize,
) -> Result<(), Fault> {
    let mut register = Register::<K>::new(rt.alloc(), MOST_MOVES)?;
    run_each(rt, conn, &mut register, "load-project", loads)?;
    let peer = set_peer(rt.alloc())?;
    run_one(rt, conn, &mut register, "set-peer", &peer)?;
    run_each(rt, conn, &mut register, "import", imports)?;
    for round in 0..rounds {
        run_round(rt, conn, &mut register, round)?;
    }
    Ok(())
}

// Runs some commands of one kind.
fn run_each<S: Alter, K: Keeper>(
    rt: &(impl Clock + AllocGlobal + Print),
    conn: &mut Connection<S>,
    register: &mut Register<K>,
    what: &str,
    commands: &[Command],
) -> Result<(), Fault> {
    for command in commands {
        run_one(rt, conn, register, what, command)?;
    }
    Ok(())
}

// Adds an entry and drops it.
fn run_round<S: Alter, K: Keeper>(
    rt: &(impl Clock + AllocGlobal + Print),
    conn: &mut Connection<S>,
    register: &mut Register<K>,
    round: usize,
) -> Result<(), Fault> {
    let add = add_other(rt.alloc(), round)?;
    let outcome = run_one(rt, conn, register, "add-entry", &add)?;
    let drop = drop_entry(number_of(outcome)?)?;
    run_one(rt, conn, register, "drop-entry", &drop)?;
    Ok(())
}

/// The number that a command gave to an entry.
pub fn number_of(outcome: Outcome) -> Result<u64, Fault> {
    match outcome {
        Outcome::Done {
            number: Some(number),
            ..
        } => Ok(number),
        _ => Err(Fault::NotUnderstood),
    }
}

// Runs a command and prints what its parts took.
fn run_one<S: Alter, K: Keeper>(
    rt: &(impl Clock + AllocGlobal + Print),
    conn: &mut Connection<S>,
    register: &mut Register<K>,
    what: &str,
    command: &Command,
) -> Result<Outcome, Fault> {
    if !conn.is_autocommit() {
        return Err(Fault::NotUnderstood);
    }
    run_written(rt, conn, register, what, command)
}

/// Opens the register in a database that took so many nanoseconds to open. Prints these, the nanoseconds from there
/// until the register was opened, and how many entries it holds.
pub fn run_opened<S: Alter + Drop, K: Keeper>(
    rt: &(impl Clock + AllocGlobal + Print),
    conn: Connection<S>,
    connecting: u128,
) -> Result<(), Fault> {
    let begun = Instant::now(rt)?;
    let store = opened::<S, K>(rt.alloc(), conn)?;
    let opening = begun.elapsed(rt)?.as_nanos();
    let count = entries_held(store.register());
    println!(rt; "open {connecting} {opening} {count}")?;
    Ok(())
}

fn entries_held<K: Keeper>(register: &Register<K>) -> usize {
    let mut count = register.entries().len();
    for peer in register.peers() {
        count = count.saturating_add(peer.content.entries().len());
    }
    count
}

fn opened<S: Alter + Drop, K: Keeper>(
    alloc: Global,
    conn: Connection<S>,
) -> Result<Store<S, K>, Fault> {
    if !conn.is_autocommit() {
        return Err(Fault::NotUnderstood);
    }
    match Store::open(alloc, conn) {
        Ok(store) => Ok(store),
        Err(refused) => Err(fault_of(refused)),
    }
}
