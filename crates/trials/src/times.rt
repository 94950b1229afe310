//! Times imports into a register, a register in a file, files that replace what is held, commands to a review desk,
//! exemptions that lapse, and what projects demand, by the clock, for the benches.
//!
//! The first word is `times`, the second names a keeper of the classes, and the third says what is timed.
//!
//! `imports` and two numbers time imports. Standard input has audits files of a peer, with a line `---` between two.
//! The program reads them, and makes a register with the demand of a project and with own entries. Then in each round
//! it sets the peer, imports each file in turn, sets another peer, adds an entry, and drops the peer. The first number
//! says how many rounds there are; if it is 0, the files are read and no register is made. The second says how many
//! demanded pairs and own entries there are. For each file it prints `read COUNT`.
//!
//! `replace` and a number of rounds time replacements. Standard input has parts, with a line `===` between two, and a
//! part has texts, with a line `---` between two. The first part is dependency tables, and a register is made of their
//! projects. Each other part is an audits file, a config file and an imports file. In each round the program reads
//! these and replaces what is held by them, part after part, and then sets a criterion. For each part it prints
//! `read COUNT NANOSECONDS NANOSECONDS`: its entries, until it was read, and until it was one value.
//!
//! `desk`, a number of reviews and one of rounds time commands to the review desk. Standard input is ignored. The
//! register has one demanded pair, a member, and reviews of all states. In each round a review is opened; one is
//! assigned and finished by its version, for which an equal entry is held; another is assigned and finished by a delta;
//! one is withdrawn; a peer is set; and a criterion is removed. At the end it prints `reviews COUNT`.
//!
//! `lapses`, a number of exemptions and one of rounds time exemptions that lapse. Standard input is ignored. There are
//! as many demanded packages as exemptions, and each has an exemption with a last day of its own. In each round an
//! entry of one package is added, and then the register's day is set to the day after the last day of its exemption.
//!
//! `demand` and a number of rounds time a demand. Standard input has an audits file, of which the criteria are taken, a
//! config file, of which the policies are taken, and dependency tables, with a line `---` between two. For each table
//! it prints `read NODES EDGES`, and then for each round `demand NANOSECONDS PAIRS`.
//!
//! `store`, a path and a number of rounds time a register in a file. Standard input has dependency tables, a line
//! `===`, and audits files of a peer, with a line `---` between two tables and between two files. The program makes the
//! file, loads the tables in turn, all as one project, and imports each audits file. Then in each round it adds an
//! entry and drops it. For each command it prints what it is and its nanoseconds: until it was prepared, from there
//! until its rows were known, from there until they were committed, and in all. Then it prints how many changes of rows
//! that were, and how many of them were of other tables than `standing` and `moves`.
//!
//! `open` and a path open that register. It prints `open NANOSECONDS NANOSECONDS COUNT`: until the database was open,
//! from there until the register was, and how many entries it holds. `parts` and a path time the parts of that, and
//! then a command for which the plain keeper recomputes every class. `memory` and a number of rounds time commands to a
//! register in memory, as `store` does without tables. For each part or command it prints `WHAT NANOSECONDS`.
//!
//! For each other command of a round it prints what it is, its nanoseconds and its outcome. The status is 1 if anything
//! is refused or fails, and 2 if the words or the parts are not understood.
use crate::files::{time_commands, time_opening, time_parts};
use crate::times::input::{Task, read_path, read_task, read_text};
use crate::words::KeeperWord;
use std::process::ExitCode;
use trial_registers::relay::RelayKeeper;
use trial_store_times::memory_rounds::run_memory;
use trial_times::demand_rounds::run_demands;
use trial_times::desk_rounds::run_reviews;
use trial_times::import_rounds::run_imports;
use trial_times::lapse_rounds::run_lapses;
use trial_times::replacements::run_replacements;
use trial_values::fault::Fault;
use vet_graph::keeper::Keeper;
use vet_graph::plain::PlainKeeper;
use vet_masks::keeper::MaskKeeper;

mod input;

/// The status of a run of words that aren't understood.
const NOT_UNDERSTOOD: u8 = 2;

/// Times what the words ask for.
pub fn run_times(rt: &HostRuntime) -> ExitCode {
    match &run_whole(rt) {
        Ok(()) => ExitCode::SUCCESS,
        Err(Fault::NotUnderstood) => ExitCode::from(NOT_UNDERSTOOD),
        Err(_) => ExitCode::FAILURE,
    }
}

fn run_whole(rt: &HostRuntime) -> Result<(), Fault> {
    let (keeper, task) = read_task(rt)?;
    match keeper {
        KeeperWord::Plain => run_task::<PlainKeeper>(rt, task),
        KeeperWord::Masks => run_task::<MaskKeeper>(rt, task),
        KeeperWord::Relay => run_task::<RelayKeeper>(rt, task),
    }
}

fn run_task<K: Keeper>(rt: &HostRuntime, task: Task) -> Result<(), Fault> {
    let text = read_text(rt)?;
    match task {
        Task::Imports(sizes) => run_imports::<K>(rt, sizes, text.as_str()),
        Task::Replacements(rounds) => run_replacements::<K>(rt, rounds, text.as_str()),
        Task::Desk(reviews) => run_reviews::<K>(rt, reviews),
        Task::Lapses(lapses) => run_lapses::<K>(rt, lapses),
        Task::Demands(rounds) => run_demands(rt, rounds, text.as_str()),
        Task::Stored(rounds) => {
            let path = read_path(rt)?;
            time_commands::<K>(rt, rounds, path.as_str(), text.as_str())
        }
        Task::Opened => {
            let path = read_path(rt)?;
            time_opening::<K>(rt, path.as_str())
        }
        Task::Parts => {
            let path = read_path(rt)?;
            time_parts::<K>(rt, path.as_str())
        }
        Task::Memory(rounds) => run_memory::<K>(rt, rounds, text.as_str()),
    }
}
