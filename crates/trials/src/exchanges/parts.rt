//! Requests in memory, each of which is read, routed and answered by calls that make their own room.

use crate::exchanges::served;
use sqlite::Alter;
use std::alloc::Global;
use std::io::Write;
use trial_values::fault::Fault;
use vet_base::day::Day;
use vet_http::answer::answer;
use vet_http::input::CountedReader;
use vet_http::output::write_whole;
use vet_http::reply::Reply;
use vet_http::request::{Request, read_request};
use vet_http::request_fault::RequestFault;
use vet_http::route::find_route;
use vet_http::status::Status;
use vet_masks::keeper::MaskKeeper;
use vet_store::store::Store;

/// Answers each request, and writes its reply.
pub fn serve_in_parts<S: Alter, W: Write>(
    alloc: Global,
    store: &mut Store<S, MaskKeeper>,
    day: Day,
    requests: &[String],
    writer: &mut W,
) -> Result<(), Fault> {
    for request in requests {
        let mut reader = CountedReader::new(alloc, request.as_bytes());
        let reply = match read_request(alloc, &mut reader) {
            Ok(told) => reply_to(alloc, store, day, told)?,
            Err(_) => return Err(Fault::Stream),
        };
        served(write_whole(writer, reply.bytes.as_slice()))?;
    }
    Ok(())
}

// The reply to a request, or to its fault.
fn reply_to<S: Alter>(
    alloc: Global,
    store: &mut Store<S, MaskKeeper>,
    day: Day,
    told: Result<Request, RequestFault>,
) -> Result<Reply, Fault> {
    match told {
        Ok(request) => {
            if !has_route(alloc, request.target())? {
                return Ok(Reply::plain(alloc, Status::NotFound)?);
            }
            Ok(answer(alloc, store, day, &request)?)
        }
        Err(fault) => Ok(Reply::plain(alloc, fault.status())?),
    }
}

fn has_route(alloc: Global, target: &[u8]) -> Result<bool, Fault> {
    match str::from_utf8(target) {
        Ok(target) => Ok(find_route(alloc, target)?.is_some()),
        Err(_) => Ok(false),
    }
}
