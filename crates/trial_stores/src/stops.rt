//! A register in two files in memory, a database file and its log, of which one stops: from its N-th call on, each
//! call fails and changes nothing.
//!
//! `--stop-log N` stops the log, and `--stop-db N` the database file. A register is made and given all the commands,
//! also those after one that was refused because of the stop. It prints the answers and what the register holds at
//! the end, and then a line `stop met log COUNT db COUNT`, or `no stop log COUNT db COUNT` if the file had fewer calls.
//! The counts are those of the calls of each file, the failed ones included. After that the files are opened again,
//! and what they hold is printed twice. Below a line `as written` it is what the end of the process leaves, all that
//! was written. Below a line `as synced` it is what the end of the machine leaves, if all is lost that was not synced.
//! If no register is there, the refusal is printed, and a register is made. If the tables are of the first version, a
//! line `first version` comes first, and they are taken over.
//!
//! Three words may follow, in this order. `--stop-open` lets the commands run without a stop. Then it opens the
//! register on copies of the files, one of which stops, and prints the refusal if there is one; the counts are those of
//! the copies. `--first-version`, only after `--stop-open`, turns the tables into those of the first version before
//! they are opened. `--checkpoint` copies the log into the database file before each commit, and again at the end, when
//! it closes the files. Otherwise the log is not copied.

use crate::stops::files::{ALL_CALLS, Calls, StoppingFiles, copies_of, empty_files};
use crate::stops::left::print_left;
use crate::stops::run::{open_files, run_files};
use std::alloc::Global;
use std::io;
use trial_registers::items::NumberedItem;
use trial_registers::run::How;
use trial_values::ending::{Ending, refused};
use trial_values::fault::Fault;
use vet_graph::keeper::Keeper;

mod counted;
mod files;
mod left;
mod run;

/// Which of a database's files stops.
#[derive(Clone, Copy)]
pub enum StoppedFile {
    Log,
    Database,
}

/// A stop, and the run that is to meet it.
#[derive(Clone, Copy)]
pub struct DiskStop {
    pub file: StoppedFile,
    /// The first call that fails, counted from 1.
    pub call: u64,
    /// Whether the file stops while the register is opened after the run, and not in the run.
    pub in_open: bool,
    /// Whether the tables are turned into those of the first version before that.
    pub first_version: bool,
    /// Whether the log is copied into the database file before each commit and at the end.
    pub checkpoint: bool,
}

impl DiskStop {
    // How many calls of each file succeed.
    fn calls(self) -> Calls {
        let before = self.call.saturating_sub(1);
        match self.file {
            StoppedFile::Log => Calls {
                log: before,
                db: u64::MAX,
            },
            StoppedFile::Database => Calls {
                log: u64::MAX,
                db: before,
            },
        }
    }

    // How many of them succeed in the run.
    fn calls_of_run(self) -> Calls {
        if self.in_open {
            ALL_CALLS
        } else {
            self.calls()
        }
    }

    /// Whether the stop was met if the files had so many calls.
    pub fn is_met(self, log: u64, db: u64) -> bool {
        match self.file {
            StoppedFile::Log => log >= self.call,
            StoppedFile::Database => db >= self.call,
        }
    }
}

/// Gives items to a register in files of which one stops. Prints the answers, what the register holds at the end,
/// whether the stop was met, and what the files hold once they are opened again.
pub fn run_stopped<K: Keeper>(
    rt: &impl Print,
    alloc: Global,
    items: &[NumberedItem<'_>],
    how: How,
    stop: DiskStop,
) -> io::Result<Ending> {
    let files = empty_files(alloc, stop.calls_of_run());
    let (ending, files) = run_files::<_, K>(rt, alloc, files, items, how, stop)?;
    match ending {
        Ending::Line(_) => Ok(ending),
        _ => end_run::<K>(rt, alloc, files, items, stop),
    }
}

fn end_run<K: Keeper>(
    rt: &impl Print,
    alloc: Global,
    files: StoppingFiles,
    items: &[NumberedItem<'_>],
    stop: DiskStop,
) -> io::Result<Ending> {
    if !stop.in_open {
        return print_left::<K>(rt, alloc, files, items, stop);
    }
    match copies_of(alloc, &files, stop.calls()) {
        Ok(copies) => {
            let files = open_files::<_, K>(rt, alloc, copies)?;
            print_left::<K>(rt, alloc, files, items, stop)
        }
        Err(refusal) => refused(rt, &Fault::Refused(refusal)),
    }
}
