//! Requests over streams that give and take one byte for each call, and fail.

use crate::exchanges::faulty_streams::{FaultyReader, FaultyWriter, Interruptions, WithoutRoom};
use crate::exchanges::served;
use sqlite::Alter;
use std::alloc::Global;
use std::io;
use std::io::Write;
use trial_values::fault::Fault;
use vet_base::day::Day;
use vet_http::input::CountedReader;
use vet_http::io_fault::IoFault;
use vet_http::output::write_whole;
use vet_http::serve::{Served, serve_one};
use vet_masks::keeper::MaskKeeper;
use vet_store::store::Store;

/// How many words a request has: those on its reader, those on its writer, and itself.
const WORDS_OF_EACH: usize = 5;

/// Serves each request over streams of its own. Prints its status or fault, and then what was written.
pub fn serve_over_streams<S: Alter, W: Write>(
    rt: &HostRuntime,
    store: &mut Store<S, MaskKeeper>,
    day: Day,
    words: &[String],
    writer: &mut W,
) -> Result<(), Fault> {
    for of_one in words.chunks(WORDS_OF_EACH) {
        let [interruptions, failing, room, without_room, request] = of_one else {
            return Err(Fault::NotUnderstood);
        };
        let mut reader = FaultyReader::new(
            request.as_bytes(),
            interruptions_of(interruptions.as_str())?,
            number_of(failing.as_str())?,
        );
        let mut replied = FaultyWriter::new(
            rt.alloc(),
            number_of(room.as_str())?,
            without_room_of(without_room.as_str())?,
        );
        let came = serve_counted(rt.alloc(), store, day, &mut reader, &mut replied);
        print_came(rt, &came)?;
        print_calls(rt, &reader, &replied)?;
        served(write_whole(writer, replied.taken.as_slice()))?;
    }
    Ok(())
}

fn serve_counted<S: Alter>(
    alloc: Global,
    store: &mut Store<S, MaskKeeper>,
    day: Day,
    reader: &mut FaultyReader<'_>,
    replied: &mut FaultyWriter,
) -> Result<Served, IoFault> {
    let mut counted = CountedReader::new(alloc, reader);
    serve_one(alloc, store, day, &mut counted, replied)
}

// The status of the reply, or the fault.
fn print_came(rt: &impl Print, came: &Result<Served, IoFault>) -> io::Result<()> {
    match came {
        Ok(reply) => print!(rt; "{}", reply.status.number()),
        Err(IoFault::Input) => print!(rt; "Input"),
        Err(IoFault::Output) => print!(rt; "Output"),
        Err(IoFault::Endless) => print!(rt; "Endless"),
        Err(IoFault::NoMemory) => print!(rt; "NoMemory"),
    }
}

fn print_calls(
    rt: &impl Print,
    reader: &FaultyReader<'_>,
    replied: &FaultyWriter,
) -> io::Result<()> {
    println!(rt;
        " reads {} interrupted {} writes {}",
        reader.made, reader.interrupted, replied.made
    )
}

fn interruptions_of(word: &str) -> Result<Interruptions, Fault> {
    match word {
        "never" => Ok(Interruptions::Never),
        "before-each" => Ok(Interruptions::BeforeEach),
        "always" => Ok(Interruptions::Always),
        _ => Err(Fault::NotUnderstood),
    }
}

fn without_room_of(word: &str) -> Result<WithoutRoom, Fault> {
    match word {
        "fails" => Ok(WithoutRoom::Fails),
        "is-interrupted" => Ok(WithoutRoom::IsInterrupted),
        "takes-nothing" => Ok(WithoutRoom::TakesNothing),
        _ => Err(Fault::NotUnderstood),
    }
}

fn number_of(word: &str) -> Result<usize, Fault> {
    match word.parse::<usize>() {
        Ok(number) => Ok(number),
        Err(_) => Err(Fault::NotUnderstood),
    }
}
