//! A program of tests, not part of the product: what `vetd serve` does with clients in memory.
//!
//! Its first word is how many clients are awaited, and each later word is what comes: a whole request; `failed`, for a
//! client that can't be served; `lost`, for the loss of the listener; or, as the only one, `no-port`, if the port can't
//! be had. Standard output has the replies and what the program prints, in the order in which they are written, and
//! standard error a fault of the network. The last line, if the listener was closed, says how many clients were
//! released. If the first word is `class` or `read`, it answers its words by `class_run` or `read_run`, as `vetd` does.
//! The status is that of the program, or 3 if memory ran out for its words.
#![tactic(auto)]

use sqlite::Connection as Database;
use std::collections::VecDeque;
use std::io::Write;
use std::process::ExitCode;
use std::{env, io};
use trial_values::fault::Fault;
use vet_base::day::Day;
use vet_base::refusal::Refusal;
use vet_http::serve::Connection;
use vet_masks::keeper::MaskKeeper;
use vet_requests::input::CountedReader;
use vet_requests::io_fault::IoFault;
use vet_store::memory::file::MemoryFiles;
use vetd_commands::databases::Databases;
use vetd_program::clients::arrival::Arrival;
use vetd_program::clients::memory_network::MemoryNetwork;
use vetd_program::clients::network::{HangUp, Network};
use vetd_program::program::program_run;
use vetd_words::run::{class_run, read_run};

/// The day on which all clients are served.
const DAY: &str = "2024-05-01";

/// The status of a run that ran out of memory for its words.
const NO_MEMORY: u8 = 3;

/// The status of a run that ended with a fault.
const FAULTED: u8 = 1;

/// Writes a client's reply to another writer.
#[derive(Drop)]
struct ReplyWriter<W> {
    writer: W,
}

impl<W: Write> Write for ReplyWriter<W> {
    fn write(&mut self, buf: &[u8]) -> io::Result<usize> {
        self.writer.write(buf)
    }

    fn flush(&mut self) -> io::Result<()> {
        self.writer.flush()
    }
}

impl<W: Write> HangUp for ReplyWriter<W> {
    fn hang_up(&mut self, _awaited: bool) {}
}

/// No database at any path.
#[derive(Drop)]
struct NoDatabases;

impl Databases<MemoryFiles> for NoDatabases {
    ghost use Rattle.std.specs.Prelude.{◌≡◌, Err};
    ghost use Rattle.vet_base.specs.declared.refusal.Refusal.TheVariants.{StoreRefused};

    ghost may_give = { λ _ _ given. given ≡ Err StoreRefused };

    ghost may_find = { λ _ _ found. found ≡ Err StoreRefused };

    fn connect(&mut self, _path: &str) -> Result<Database<MemoryFiles>, Refusal> {
        Err(Refusal::StoreRefused)
    }

    fn find(&mut self, _path: &str) -> Result<Database<MemoryFiles>, Refusal> {
        Err(Refusal::StoreRefused)
    }
}

/// What a word becomes.
fn arrival<'a, W: Drop>(
    rt: &HostRuntime,
    word: &'a str,
    writer: W,
) -> Result<Arrival<&'a [u8], ReplyWriter<W>>, Fault> {
    match word {
        "failed" => Ok(Arrival::Failed),
        "lost" => Ok(Arrival::Lost),
        request => Ok(Arrival::Client(Connection {
            day: Day::parse(DAY)?,
            reader: CountedReader::new(rt.alloc(), request.as_bytes()),
            writer: ReplyWriter { writer },
        })),
    }
}

/// Serves the clients that the words after the first stand for.
fn run_words(rt: &HostRuntime, words: &[String]) -> Result<u8, Fault> {
    let Some((awaited, rest)) = words.split_first() else {
        return Err(Fault::NotUnderstood);
    };
    let mut coming = VecDeque::new(rt.alloc());
    for word in rest {
        coming.push_back(arrival(rt, word.as_str(), io::writer(rt))?)?;
    }
    let mut network = MemoryNetwork::new(rt.alloc(), coming);
    if rest.len() == 1 && rest[0].as_str() == "no-port" {
        let _listener = network.listen(1);
    }
    let status = serve(rt, awaited.as_str(), &mut network)?;
    if let Some(released) = network.into_released() {
        let count = released.len();
        println!(rt; "released {count}")?;
    }
    Ok(status)
}

/// Has the program serve the clients of a network.
fn serve<N: Network>(rt: &HostRuntime, awaited: &str, network: &mut N) -> Result<u8, Fault> {
    let words = [
        "serve",
        "--port",
        "8080",
        "--connections",
        awaited,
        "--day",
        DAY,
    ];
    let run = program_run::<&str, MemoryFiles, MaskKeeper, NoDatabases, N, _, _, _>(
        rt.alloc(),
        &words[..],
        network,
        &mut CountedReader::new(rt.alloc(), rt.reader()),
        &mut NoDatabases,
        &mut io::writer(rt),
        &mut rt.stderr(),
    );
    Ok(status_of(run.status))
}

/// Answers the words of `vetd class`.
fn run_class(rt: &HostRuntime, words: &[String]) -> u8 {
    status_of(class_run(
        rt.alloc(),
        words,
        &mut CountedReader::new(rt.alloc(), rt.reader()),
        &mut io::writer(rt),
        &mut rt.stderr(),
    ))
}

/// Answers the words of `vetd read`.
fn run_read(rt: &HostRuntime, words: &[String]) -> u8 {
    status_of(read_run(
        rt.alloc(),
        words,
        &mut CountedReader::new(rt.alloc(), rt.reader()),
        &mut io::writer(rt),
        &mut rt.stderr(),
    ))
}

/// The status of a run.
fn status_of(run: Result<u8, IoFault>) -> u8 {
    match run {
        Ok(status) => status,
        Err(_) => FAULTED,
    }
}

/// The words after the program's name.
fn words_after_name(rt: &HostRuntime) -> Result<Vec<String>, Fault> {
    let mut words = env::args(rt)?;
    let _name = words.next();
    Ok(words.collect(rt.alloc())?)
}

fn run(rt: &HostRuntime) -> Result<u8, Fault> {
    let words = words_after_name(rt)?;
    run_by(rt, words.as_slice())
}

/// Answers the words, by the first of them.
fn run_by(rt: &HostRuntime, words: &[String]) -> Result<u8, Fault> {
    let Some(first) = words.first() else {
        return Err(Fault::NotUnderstood);
    };
    match first.as_str() {
        "class" => Ok(run_class(rt, words)),
        "read" => Ok(run_read(rt, words)),
        _ => run_words(rt, words),
    }
}

fn main(rt: HostRuntime) -> ExitCode {
    match &run(&rt) {
        Ok(status) => ExitCode::from(*status),
        Err(_) => ExitCode::from(NO_MEMORY),
    }
}
