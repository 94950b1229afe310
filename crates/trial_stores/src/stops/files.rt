//! Files in memory that stop: from one call on, each call fails and changes nothing.

use crate::stops::counted::CountedDisk;
use sqlite::Files;
use sqlite_disk::{Disk, Fuse, Memory};
use std::alloc::Global;
use vet_base::refusal::Refusal;

/// A file in memory that stops.
pub type StoppingFile = CountedDisk<Fuse<Memory>>;

/// A database file in memory that stops, or whose log does.
pub type StoppingFiles = Files<StoppingFile>;

/// How many calls of each file succeed before it stops.
#[derive(Clone, Copy)]
pub struct Calls {
    pub log: u64,
    pub db: u64,
}

/// More calls than are ever made, so that no file stops.
pub const ALL_CALLS: Calls = Calls {
    log: u64::MAX,
    db: u64::MAX,
};

/// Empty files. Takes no memory.
pub fn empty_files(alloc: Global, calls: Calls) -> StoppingFiles {
    Files {
        log: CountedDisk::new(Fuse::new(Memory::new(alloc), calls.log)),
        db: CountedDisk::new(Fuse::new(Memory::new(alloc), calls.db)),
    }
}

/// Files that have the bytes that were written to others, all of them synced. Refused: `NoMemory`.
pub fn copies_of(
    alloc: Global,
    files: &StoppingFiles,
    calls: Calls,
) -> Result<StoppingFiles, Refusal> {
    Ok(Files {
        log: copy_of(alloc, &files.log, calls.log)?,
        db: copy_of(alloc, &files.db, calls.db)?,
    })
}

// A fuse does not give its disk back, so the bytes are copied.
fn copy_of(alloc: Global, file: &StoppingFile, calls: u64) -> Result<StoppingFile, Refusal> {
    let mut memory = Memory::new(alloc);
    if memory.write_at(0, file.inner().inner().bytes()).is_err() {
        return Err(Refusal::NoMemory);
    }
    if memory.sync().is_err() {
        return Err(Refusal::NoMemory);
    }
    Ok(CountedDisk::new(Fuse::new(memory, calls)))
}
