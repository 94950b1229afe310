//! The head of a request, from a reader that gives its bytes in any pieces.
//!
//! A head must end within the first 16,384 bytes. So after each read, as many of these as have come are parsed again,
//! until they begin with a head, no head can begin with them, the input ends, or all of them have come. One byte more
//! may be read, which shows whether the input goes on. The parser gets room for the fields of any head this short, so
//! it never runs out of it. The number of fields is checked later, and only for a whole head.
ghost use Rattle.std.specs.Prelude.{◌≡◌, ◌≢◌, ◌+◌, ◌≤◌, drop, length, IfOk, IfErr, IfSome, OnOk};
ghost use Rattle.httparse.specs.Spans.{IsRequestWithin};
ghost use Rattle.vet_base.specs.declared.limits.TheConstants.{MOST_READS};
ghost use Rattle.vet_requests.specs.Input.{Hands, TakesAtMost, heard};
ghost use Rattle.vet_requests.specs.Head.{IsFound, IsFoundWithin, Says, front};

use crate::field_room::FIELD_ROOM;
use crate::input::CountedReader;
use crate::io_fault::IoFault;
use crate::request_limits::MOST_HEAD_BYTES;
use httparse::spans::{HeaderSpan, RequestSpans, parse_request};
use httparse::{Error, Status};
use std::io::Read;

/// The head at the start of a connection's bytes, or the reason why there is none.
#[derive(Clone, Copy)]
pub(crate) enum Head {
    /// A head, with the places of its parts.
    Whole(RequestSpans),
    /// No head, and the input ends, or no head can begin with these bytes.
    BadRequest,
    /// No head, and the input goes on.
    TooLarge,
}

/// The result of one parse of the bytes so far.
#[derive(Clone, Copy)]
pub(crate) enum Parsed {
    Whole(RequestSpans),
    Never,
    Open,
}

/// The bytes in which a head must end.
pub(crate) fn front_of(bytes: &[u8]) -> &[u8]
    ensures front { result.now ≡ front bytes.now }
    ensures short { length result.now ≤ MOST_HEAD_BYTES }
    ensures within { length result.now ≤ length bytes.now }
{
    &bytes[..bytes.len().min(MOST_HEAD_BYTES)]
}

/// Reads until a head is whole, or none is possible. The bytes that were read are those that the reader handed over
/// after the first `start`, and the head's fields are in `fields`. Refused: `Input`, `Endless` and `NoMemory`.
pub(crate) fn read_head<R: Read>(
    reader: &mut CountedReader<R>,
    start: usize,
    fields: &mut [HeaderSpan],
) -> Result<Head, IoFault>
    requires start { start ≡ length reader.old.handed }
    requires room { length fields.old ≡ FIELD_ROOM }
    ensures read { OnOk result
        (Hands (heard R.remaining reader.old) (heard R.remaining reader.new) (drop start reader.new.handed)) }
    ensures found { IfOk result (λ head.
        IsFound (drop start reader.new.handed) (drop start reader.new.handed) fields.new head) }
    ensures whole { IfOk result (λ head. IfSome (R.remaining reader.old.source)
        (λ input. IsFound input (drop start reader.new.handed) fields.new head)) }
    ensures within { IfOk result (IsFoundWithin (front (drop start reader.new.handed)) fields.new) }
    ensures bounded { TakesAtMost (MOST_HEAD_BYTES + 1) (heard R.remaining reader.old) (heard R.remaining reader.new) }
    ensures endless { result ≡ Err IoFault.Endless → reader.new.made ≡ MOST_READS }
    ensures faults { IfErr result (λ fault. fault ≢ IoFault.Output) }
{
    'reading: loop {
        let bytes = reader.handed_from(start);
        match parse_front(front_of(bytes), fields) {
            Parsed::Whole(spans) => return Ok(Head::Whole(spans)),
            Parsed::Never => return Ok(Head::BadRequest),
            Parsed::Open => {}
        }
        let count = bytes.len();
        if count > MOST_HEAD_BYTES {
            return Ok(Head::TooLarge);
        }
        if reader.read_more(MOST_HEAD_BYTES + 1 - count)? == 0 {
            return Ok(Head::BadRequest);
        }
    }
}

/// Parses the bytes in which a head must end. The room is never too small for a head's fields.
fn parse_front(bytes: &[u8], fields: &mut [HeaderSpan]) -> Parsed
    requires short { length bytes.now ≤ MOST_HEAD_BYTES }
    requires room { length fields.old ≡ FIELD_ROOM }
    ensures { Says bytes.now fields.new result }
{
    match parse_request(bytes, fields) {
        Ok(Status::Complete(spans)) => Parsed::Whole(spans),
        Ok(Status::Partial) => Parsed::Open,
        Err(Error::TooManyHeaders) => unreachable!(),
        Err(_) => Parsed::Never,
    }
}
