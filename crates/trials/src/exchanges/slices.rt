//! Requests in memory, served by one call.

use crate::exchanges::served;
use sqlite::Alter;
use std::alloc::Global;
use std::io::Write;
use trial_values::fault::Fault;
use vet_base::day::Day;
use vet_http::input::CountedReader;
use vet_http::io_fault::IoFault;
use vet_http::output::write_whole;
use vet_http::serve::{Connection, Served, serve_slices};
use vet_masks::keeper::MaskKeeper;
use vet_store::store::Store;

/// Serves all requests by one call, and then writes their replies.
pub fn serve_together<S: Alter, W: Write>(
    alloc: Global,
    store: &mut Store<S, MaskKeeper>,
    day: Day,
    requests: &[String],
    writer: &mut W,
) -> Result<(), Fault> {
    let mut connections = Vec::new(alloc);
    for request in requests {
        connections.push(Connection {
            day,
            reader: CountedReader::new(alloc, request.as_bytes()),
            writer: Vec::new(alloc),
        })?;
    }
    let answers = serve_slices(alloc, store, connections.as_mut_slice())?;
    for answer in answers.iter() {
        check_served(answer)?;
    }
    for connection in connections.iter() {
        served(write_whole(writer, connection.writer.as_slice()))?;
    }
    Ok(())
}

// Whether a request had its whole reply.
fn check_served(answer: &Result<Served, IoFault>) -> Result<(), Fault> {
    match answer {
        Ok(_) => Ok(()),
        Err(_) => Err(Fault::Stream),
    }
}
