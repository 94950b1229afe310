//! A file in memory, for a database that ends with the program.
//!
//! **What is written to it is there at once. So a sync does nothing, and a commit costs the same however long the file
//! is.** A read returns what was written, so contracts about a connection need no premise about a disk.
ghost use Rattle.std.specs.Prelude.{◌≡◌, [], false, is_ok, length, IfErr, IfOk, OnOk, refl, true};
ghost use Rattle.sqlite.specs.Files.{file_state};
ghost use Rattle.sqlite.specs.Held.{IsNew};
ghost use Rattle.sqlite.specs.Steps.{IsEmpty};
ghost use Rattle.sqlite_disk.specs.Disk.{Cut, CountsFault, Holds, Torn};
ghost use Rattle.sqlite_disk.specs.Refusal.{finds_no_room};
ghost use Rattle.vet_store.specs.Runs.{IsOfStore};

use crate::refused::refusal_of;
use sqlite::Connection;
use sqlite_disk::{Disk, Files, Tally};
use sqlite_pager::Options;
use sqlite_store::FileStore;
use std::alloc::{AllocError, Global};
use std::io;
use vet_base::refusal::Refusal;

/// A database file and its log, both in memory.
pub type MemoryFiles = FileStore<MemoryFile>;

/// The bytes of a file, and how many of its calls ran out of memory.
#[derive(Drop)]
pub struct MemoryFile {
    bytes: Vec<u8>,
    faults: u64,
}

impl MemoryFile {
    ghost use Rattle.vet_store.specs.MemoryFile.{bytes_in};

    /// An empty file. Takes no memory.
    pub fn new(alloc: Global) -> MemoryFile
        ensures { bytes_in result ≡ [] }
    {
        MemoryFile {
            bytes: Vec::new(alloc),
            faults: 0,
        }
    }
}

impl Disk for MemoryFile {
    ghost seen = { λ f. f.bytes.items };

    ghost may_leave = { λ f bytes. bytes ≡ f.bytes.items };

    ghost is_usable = { λ _. true };

    ghost faults = { λ f. f.faults };

    ghost tally_of = { λ f. record { caught = 0; refused = 0 } };

    ghost is_clean = { λ _. true };

    ghost key_of = { λ _. 0 };

    ghost is_fair = { λ _ _. true };

    ghost fair_if_clean = { λ _ _ _. refl };

    ghost seen_may_stay = { λ _. refl };

    fn mixes(&self) -> bool {
        false
    }

    // Memory returns what was written, so it needs no secret.
    fn key(&self) -> u64 {
        0
    }

    fn tally(&self) -> Tally {
        Tally {
            caught: 0,
            refused: 0,
        }
    }

    fn may_be_used(&self) -> bool {
        true
    }

    fn len(&mut self) -> io::Result<usize> {
        Ok(self.bytes.len())
    }

    fn read_at(&mut self, at: usize, buf: &mut [u8]) -> io::Result<()> {
        if at > self.bytes.len() || buf.len() > self.bytes.len() - at {
            return Err(io::ErrorKind::UnexpectedEof.into());
        }
        buf.copy_from_slice(&self.bytes[at..at + buf.len()]);
        Ok(())
    }

    fn read_checked(&mut self, _key: u64, _want: u64, at: usize, buf: &mut [u8]) -> io::Result<()> {
        // a read returns what was written, which has this digest
        self.read_at(at, buf)
    }

    fn write_at(&mut self, at: usize, bytes: &[u8]) -> io::Result<()> {
        let outcome = overwrite(&mut self.bytes, at, bytes);
        counted(outcome, &mut self.faults)
    }

    fn set_len(&mut self, len: usize) -> io::Result<()> {
        let outcome = resize(&mut self.bytes, len);
        counted(outcome, &mut self.faults)
    }

    fn sync(&mut self) -> io::Result<()> {
        // what was written is there
        Ok(())
    }
}

/// A connection to an empty database in memory, outside a transaction. Refused: `NoMemory` or `StoreRefused`.
pub fn connect_in_memory(alloc: Global) -> Result<Connection<MemoryFiles>, Refusal>
    ensures empty { IfOk result (λ conn. IsEmpty (file_state conn)) }
    ensures new { IfOk result IsNew }
    ensures refused { IfErr result IsOfStore }
{
    let files = Files {
        log: MemoryFile::new(alloc),
        db: MemoryFile::new(alloc),
    };
    // only this program reads the log, so its salts need not be random
    match Connection::open_files(alloc, files, Options::new(0)) {
        Ok(conn) => Ok(conn),
        Err((error, _files)) => Err(refusal_of(error)),
    }
}

// Counts running out of memory as a fault of the file, and returns it as an error.
fn counted(outcome: Result<(), AllocError>, faults: &mut u64) -> io::Result<()>
    ensures same { is_ok result ≡ is_ok outcome }
    ensures memory { finds_no_room result ≡ false }
    ensures faults { CountsFault result faults.old faults.new }
{
    if outcome.is_err() {
        *faults = faults.saturating_add(1);
        return Err(io::Error::from(io::ErrorKind::OutOfMemory));
    }
    Ok(())
}

fn resize(bytes: &mut Vec<u8>, len: usize) -> Result<(), AllocError>
    ensures len { OnOk result (length bytes.new.items ≡ len) }
    ensures others { Cut len bytes.old.items bytes.new.items }
{
    bytes.resize(len, 0)
}

fn overwrite(file: &mut Vec<u8>, at: usize, bytes: &[u8]) -> Result<(), AllocError>
    ensures written { OnOk result (Holds file.new.items at bytes.now) }
    ensures others { Torn at (length bytes.now) file.old.items file.new.items }
{
    let end = at.checked_add(bytes.len()).ok_or(AllocError)?;
    if end > file.len() {
        resize(file, end)?;
    }
    file[at..end].copy_from_slice(bytes);
    Ok(())
}
