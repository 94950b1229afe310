//! Requests to a register in memory.
//!
//! The first word is `exchanges`. The second says how the requests are served, and each of the other words is a whole
//! request. With `slices` one call of `serve_slices` serves all of them. With `loopback` each is sent over a
//! connection to this machine, which the same thread accepts and has `serve_one` serve. With `parts` each is read by
//! `read_request`, its route is found by `find_route`, and it is answered by `answer`. Standard output has the replies
//! one after the other, and nothing else.
//!
//! With `streams` each is served by `serve_one` over a reader that gives one byte for each read and a writer that takes
//! one for each write, and each request has four words before it. The first says when reads are interrupted: `never`,
//! `before-each` byte or `always`. Then come the number of the read that fails, 0 if none does, and how many bytes the
//! writer takes. The fourth says what a write does after these: `fails`, `is-interrupted` or `takes-nothing`. Before
//! what was written of the reply it prints a line `CAME reads R interrupted I writes W`: its status or the fault, and
//! how many calls there were.
//!
//! The status is 2 if a word is none of these, and 1 if something failed.
use crate::exchanges::loopback::serve_over_loopback;
use crate::exchanges::parts::serve_in_parts;
use crate::exchanges::slices::serve_together;
use crate::exchanges::streams::serve_over_streams;
use std::process::ExitCode;
use std::{env, io};
use trial_values::fault::Fault;
use vet_base::day::Day;
use vet_base::limits::MOST_MOVES;
use vet_http::io_fault::IoFault;
use vet_masks::keeper::MaskKeeper;
use vet_store::memory::run_in_memory_files;

mod faulty_streams;
mod loopback;
mod parts;
mod slices;
mod streams;

/// The status of a run of words that aren't understood.
const NOT_UNDERSTOOD: u8 = 2;

/// The day on which all requests are served.
const DAY: &str = "2024-05-01";

/// Serves the requests in the words.
pub fn run_exchanges(rt: &HostRuntime) -> ExitCode {
    match &run_whole(rt) {
        Ok(()) => ExitCode::SUCCESS,
        Err(Fault::NotUnderstood) => ExitCode::from(NOT_UNDERSTOOD),
        Err(_) => ExitCode::FAILURE,
    }
}

fn run_whole(rt: &HostRuntime) -> Result<(), Fault> {
    let mut words = env::args(rt)?;
    let _name = words.next();
    let _room = words.next();
    let Some(how) = words.next() else {
        return Err(Fault::NotUnderstood);
    };
    let requests: Vec<String> = words.collect(rt.alloc())?;
    serve_requests(rt, how.as_str(), requests.as_slice())
}

// Serves the requests by a new register, in one of the four ways.
fn serve_requests(rt: &HostRuntime, how: &str, requests: &[String]) -> Result<(), Fault> {
    let day = Day::parse(DAY)?;
    let mut first = run_in_memory_files::<MaskKeeper>(rt.alloc(), MOST_MOVES, &[])?;
    let mut writer = io::writer(rt);
    if how == "slices" {
        return serve_together(rt.alloc(), &mut first.store, day, requests, &mut writer);
    }
    if how == "loopback" {
        return serve_over_loopback(rt, &mut first.store, day, requests, &mut writer);
    }
    if how == "parts" {
        return serve_in_parts(rt.alloc(), &mut first.store, day, requests, &mut writer);
    }
    if how == "streams" {
        return serve_over_streams(rt, &mut first.store, day, requests, &mut writer);
    }
    Err(Fault::NotUnderstood)
}

/// What was served or written, or that it failed.
pub fn served<T: Drop>(came: Result<T, IoFault>) -> Result<T, Fault> {
    match came {
        Ok(served) => Ok(served),
        Err(_) => Err(Fault::Stream),
    }
}
