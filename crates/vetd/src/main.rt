//! `vetd`: questions about one file on standard input, and registers in database files.
//!
//! `vetd class PACKAGE VERSION CRITERION` prints the word of the class that an audits file gives a version of a
//! package. `vetd read KIND`, with `audits`, `config` or `imports` as KIND, prints how many things a file holds, and
//! how many were ignored. `vetd new --db PATH` makes a register in a database file, and prints `created`. `vetd apply
//! --db PATH --day D` runs the command of a document on it, and prints the outcome. `vetd report` and `vetd export`
//! print what it holds, as a report or as one of the three files. `vetd serve --port N --connections K` serves a
//! register over HTTP. Each ends with status 0. A refusal is printed to standard error as one line, with status 1. If
//! the words are not a command, clap's error is printed to standard error, with status 2, and nothing is read or made.
//! Help and the version are printed to standard output, with status 2 too.
//!
//! **The words and the input alone decide what is written, and the status. With `--db` the file and the answers of the
//! database do so too, and with `serve` the clients and the clock. A run that ends with a fault wrote nothing or, if a
//! write failed, a prefix of its answer.**
//!
//! Scope of this crate: `main`, the databases in this machine's files, and its network. `vetd_program` has what the
//! program does over any databases and any network.
#![tactic(auto)]

ghost use Rattle.std.specs.Prelude.{◌≡◌, IfOk, OnErr};

mod deadline;
mod file_databases;
mod tcp_network;
mod timed;

use crate::file_databases::{DatabaseFile, FileDatabases};
use crate::tcp_network::TcpNetwork;
use std::alloc::Global;
use std::io::Write;
use std::process::ExitCode;
use std::rt::Env;
use std::{env, io};
use vet_masks::keeper::MaskKeeper;
use vet_requests::input::CountedReader;
use vet_requests::io_fault::IoFault;
use vetd_program::program::program_run;
use vetd_words::answer::{EXPLAINED, explain};
use vetd_words::words::not_text;

/// The status of a run that ended with a fault.
const FAULTED: u8 = 1;

/// The words after the program's own name.
fn words_after_name<R: Env + AllocGlobal>(rt: &R) -> io::Result<Vec<String>> {
    let mut words = env::args(rt)?;
    let _name = words.next();
    Ok(words.collect(rt.alloc())?)
}

/// Explains why the words can't be had: memory ran out, which is a fault, or one of them is not text.
fn explain_no_words<W: Write, E: Write>(
    alloc: Global,
    kind: io::ErrorKind,
    writer: &mut W,
    errors: &mut E,
) -> Result<u8, IoFault>
    ensures { IfOk result (λ status. status ≡ EXPLAINED) }
{
    if kind == io::ErrorKind::OutOfMemory {
        return Err(IoFault::NoMemory);
    }
    let error = not_text(alloc)?;
    explain(alloc, &error, writer, errors)
}

/// The status with which a run ends: its own, or 1 after a fault, for which a line is printed to standard error. If
/// that line can't be printed, the status is the same.
fn status_of<R: Eprint>(rt: &R, run: Result<u8, IoFault>) -> u8
    ensures ended { IfOk run (λ status. result ≡ status) }
    ensures faulted { OnErr run (result ≡ 1) }
{
    match run {
        Ok(status) => status,
        Err(fault) => {
            let _ = rt.eprintln(fault);
            FAULTED
        }
    }
}

/// Answers the words, over the databases in this machine's files and over its network. A connection that the run hands
/// back is dropped at the end, and its file stays locked until then.
fn run_words(rt: &HostRuntime, words: &[String]) -> Result<u8, IoFault> {
    let run = program_run::<
        String,
        DatabaseFile,
        MaskKeeper,
        FileDatabases<'_>,
        TcpNetwork<'_, HostRuntime>,
        _,
        _,
        _,
    >(
        rt.alloc(),
        words,
        &mut TcpNetwork::new(rt),
        &mut CountedReader::new(rt.alloc(), rt.reader()),
        &mut FileDatabases::new(rt),
        &mut io::writer(rt),
        &mut rt.stderr(),
    );
    run.status
}

fn main(rt: HostRuntime) -> ExitCode {
    let run = match words_after_name(&rt) {
        Ok(words) => run_words(&rt, words.as_slice()),
        Err(error) => explain_no_words(
            rt.alloc(),
            error.kind(),
            &mut io::writer(&rt),
            &mut rt.stderr(),
        ),
    };
    ExitCode::from(status_of(&rt, run))
}
