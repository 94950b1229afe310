//! Registers in database files, opened as `vetd` opens them: a torn write may leave anything in a file, and its pages
//! have no sums.
ghost use Rattle.std.specs.Prelude.{◌≡◌, IfOk, false};

use sqlite::{Connection, Error, FileFrom, FileStore, Wary};
use std::io;
use std::time::Instant;
use trial_registers::items::NumberedItem;
use trial_registers::run::How;
use trial_store_times::opened_parts::{print_part, run_parts};
use trial_store_times::stored_rounds::{run_opened, run_rounds};
use trial_stores::stored::{OpenMode, refused_by_database, run_stored};
use trial_values::ending::Ending;
use trial_values::fault::Fault;
use vet_graph::keeper::Keeper;
use vet_store::refused::refusal_of;

/// A database file and its log.
type DatabaseFile = FileStore<FileFrom<Wary>>;

fn connected(rt: &HostRuntime, path: &str) -> Result<Connection<DatabaseFile>, Error>
    ensures { IfOk result (λ conn. conn.in_transaction ≡ false) }
{
    match Connection::open_from(rt, path, false, Wary) {
        Ok(conn) => Ok(conn),
        Err((error, _left)) => Err(error),
    }
}

fn timed(rt: &HostRuntime, path: &str) -> Result<Connection<DatabaseFile>, Fault> {
    match connected(rt, path) {
        Ok(conn) => Ok(conn),
        Err(error) => Err(Fault::Refused(refusal_of(error))),
    }
}

/// Makes or opens a register in the file of this path, gives it items, prints the answers and what it holds at the end,
/// and closes the file.
pub fn run_in_file<K: Keeper>(
    rt: &HostRuntime,
    path: &str,
    items: &[NumberedItem<'_>],
    how: How,
    mode: OpenMode,
) -> io::Result<Ending> {
    match connected(rt, path) {
        Ok(conn) => run_stored::<_, K>(rt, rt.alloc(), conn, items, how, mode),
        Err(error) => refused_by_database(rt, error),
    }
}

/// Makes a register in the file of this path, and times the commands of a text and rounds of commands.
pub fn time_commands<K: Keeper>(
    rt: &HostRuntime,
    rounds: usize,
    path: &str,
    text: &str,
) -> Result<(), Fault> {
    run_rounds::<_, K>(rt, timed(rt, path)?, rounds, text)
}

/// Times the opening of the register in the file of this path.
pub fn time_opening<K: Keeper>(rt: &HostRuntime, path: &str) -> Result<(), Fault> {
    let begun = Instant::now(rt)?;
    let conn = timed(rt, path)?;
    let connecting = begun.elapsed(rt)?.as_nanos();
    run_opened::<_, K>(rt, conn, connecting)
}

/// Times the parts of that.
pub fn time_parts<K: Keeper>(rt: &HostRuntime, path: &str) -> Result<(), Fault> {
    let begun = Instant::now(rt)?;
    let mut conn = timed(rt, path)?;
    print_part(rt, "connect", &begun)?;
    run_parts::<_, K>(rt, &mut conn)
}
