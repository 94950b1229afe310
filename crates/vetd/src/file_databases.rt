//! Databases in the files of this machine.
ghost use Rattle.std.specs.Prelude.{◌≡◌, ◌⊎◌, ◌<◌, ◌≤◌, IfErr, IfOk, IsTrue, MatchResult};
ghost use Rattle.vet_base.specs.declared.refusal.Refusal.TheVariants.{NotARegister};
ghost use Rattle.vet_store.specs.Runs.{IsOfStore};
ghost use Rattle.vetd.specs.FileDatabases.{IsOpenedNew, refusal_of_path};

use sqlite::{Connection, Wary};
use sqlite_disk::Start;
use sqlite_std_file::FileFrom;
use sqlite_store::FileStore;
use std::{fs, io};
use vet_base::refusal::Refusal;
use vet_store::refused::refusal_of;
use vetd_commands::databases::Databases;

/// A database file and its log. A torn write may leave anything in them.
pub type DatabaseFile = FileStore<FileFrom<Wary>>;

/// The most bytes of a file that holds no database.
const MOST_BYTES_OF_NONE: u64 = 1;

/// Databases in the files of this machine. A file is opened without sums of its pages, so that another program may
/// change it.
#[derive(Drop)]
pub struct FileDatabases<'a> {
    rt: &'a HostRuntime,
}

impl<'a> FileDatabases<'a> {
    /// The databases of this machine.
    pub fn new(rt: &'a HostRuntime) -> FileDatabases<'a> {
        FileDatabases { rt }
    }
}

impl Databases<DatabaseFile> for FileDatabases<'_> {
    ghost may_give = { λ _ _ given. MatchResult given IsOpenedNew IsOfStore };

    ghost may_find = { λ _ _ given. MatchResult given IsOpenedNew (λ e. IsOfStore e ⊎ (e ≡ NotARegister)) };

    fn connect(&mut self, path: &str) -> Result<Connection<DatabaseFile>, Refusal> {
        connect_as(self.rt, path, Wary)
    }

    fn find(&mut self, path: &str) -> Result<Connection<DatabaseFile>, Refusal> {
        check_file(self.rt, path)?;
        connect_as(self.rt, path, Wary)
    }
}

/// Refuses a path at which there is no file, or one of at most one byte.
fn check_file(rt: &HostRuntime, path: &str) -> Result<(), Refusal>
    ensures refused { IfErr result (λ e. IsOfStore e ⊎ (e ≡ Refusal.NotARegister)) }
{
    match fs::metadata(rt, path) {
        Ok(found) => holds_some(found.is_file(), found.len()),
        Err(error) => Err(refusal_of_path(error.kind())),
    }
}

/// Refuses a file of at most one byte, which is too short for a database.
fn holds_some(is_file: bool, bytes: u64) -> Result<(), Refusal>
    ensures refused { IfErr result (λ e. (e ≡ Refusal.NotARegister) × IsTrue is_file × (bytes < 2)) }
    ensures taken { IfOk result (λ _. IsTrue is_file → 2 ≤ bytes) }
{
    if is_file && bytes <= MOST_BYTES_OF_NONE {
        return Err(Refusal::NotARegister);
    }
    Ok(())
}

/// The refusal of a path whose file can't be examined.
fn refusal_of_path(kind: io::ErrorKind) -> Refusal
    ensures { result ≡ refusal_of_path kind }
{
    match kind {
        io::ErrorKind::NotFound | io::ErrorKind::NotADirectory => Refusal::NotARegister,
        io::ErrorKind::OutOfMemory => Refusal::NoMemory,
        _ => Refusal::StoreRefused,
    }
}

/// A connection to the database in a file. `start` says what a crash may leave of it.
fn connect_as<F: Start>(
    rt: &HostRuntime,
    path: &str,
    start: F,
) -> Result<Connection<FileStore<FileFrom<F>>>, Refusal>
    ensures new { IfOk result IsOpenedNew }
    ensures refused { IfErr result IsOfStore }
{
    match Connection::open_from(rt, path, false, start) {
        Ok(conn) => Ok(conn),
        Err((error, _left)) => Err(refusal_of(error)),
    }
}
