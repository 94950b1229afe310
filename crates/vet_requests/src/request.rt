//! Requests over HTTP.
ghost use Rattle.std.specs.Option.{option_map};
ghost use Rattle.std.specs.Prelude.{◌≡◌, ◌≢◌, ◌+◌, ◌≤◌, ◌++◌, IfErr, IfOk, length, drop, take};
ghost use Rattle.httparse.specs.Grammar.{RequestHead, print_request};
ghost use Rattle.httparse.specs.Spans.{IsRequestAt, IsRequestWithin};
ghost use Rattle.vet_base.specs.declared.limits.TheConstants.{MOST_INPUT_BYTES, MOST_READS};
ghost use Rattle.vet_requests.specs.Fields.{IsAskedWithin, asked_at};
ghost use Rattle.vet_requests.specs.Head.{front};
ghost use Rattle.vet_requests.specs.Input.{IsReadFrom, TakesAtMost, heard};
ghost use Rattle.vet_requests.specs.Request.{Requests, request_of, request_told, rest_told};
ghost use Rattle.vet_requests.specs.declared.request_limits.TheConstants.{MOST_HEAD_BYTES};

use crate::field_room::FieldRoom;
use crate::fields::{HeadSpans, read_asked};
use crate::head::{Head, front_of, read_head};
use crate::input::CountedReader;
use crate::io_fault::IoFault;
use crate::request_fault::RequestFault;
use httparse::spans::{HeaderSpan, RequestSpans};
use std::alloc::{AllocError, Global};
use std::io::Read;
use std::marker::Model;

/// A request to the register. All its parts are bytes, as they came.
pub struct Request {
    method: Vec<u8>,
    target: Vec<u8>,
    member: Option<Vec<u8>>,
    body: Vec<u8>,
}

impl Model for Request {
    ghost use Rattle.std.specs.Option.{option_map};
    ghost use Rattle.vet_requests.specs.Request.{RequestValue};

    ghost Value = { RequestValue };

    ghost view = { λ r. record {
      method = r.method.items;
      target = r.target.items;
      member = option_map (λ m. m.items) r.member;
      body = r.body.items;
    } };
}

impl Drop for Request {
    fn drop(self) {
        let Request {
            method: _,
            target: _,
            member: _,
            body: _,
        } = self;
    }
}

impl Request {
    /// A request of these parts.
    pub fn new(method: Vec<u8>, target: Vec<u8>, member: Option<Vec<u8>>, body: Vec<u8>) -> Request
        ensures { result ≡ record {
          method = method.items;
          target = target.items;
          member = option_map (λ m. m.items) member;
          body = body.items;
        } }
    {
        Request {
            method,
            target,
            member,
            body,
        }
    }

    /// The method, such as `GET`.
    pub fn method(&self) -> &[u8]
        ensures { result.now ≡ self.now.method }
    {
        self.method.as_slice()
    }

    /// The target, such as `/counts`.
    pub fn target(&self) -> &[u8]
        ensures { result.now ≡ self.now.target }
    {
        self.target.as_slice()
    }

    /// The member who makes the request, if one is named. The name may be any bytes.
    pub fn member(&self) -> Option<&[u8]>
        ensures { option_map (λ m. m.now) result ≡ self.now.member }
    {
        match &self.member {
            Some(member) => Some(member.as_slice()),
            None => None,
        }
    }

    /// The body.
    pub fn body(&self) -> &[u8]
        ensures { result.now ≡ self.now.body }
    {
        self.body.as_slice()
    }
}

/// Reads a request, or its first fault. At most 16,385 bytes and the body are read. Refused: `Input`; `Endless` if the
/// reads that a run may make are used up before that; `NoMemory`.
pub fn read_request<R: Read>(
    alloc: Global,
    reader: &mut CountedReader<R>,
) -> Result<Result<Request, RequestFault>, IoFault>
    ensures read { IfOk result (λ told.
        IsReadFrom (heard R.remaining reader.old) (heard R.remaining reader.new) (λ bytes. Requests bytes told)) }
    ensures bounded { TakesAtMost (MOST_HEAD_BYTES + 1 + MOST_INPUT_BYTES)
        (heard R.remaining reader.old) (heard R.remaining reader.new) }
    ensures endless { result ≡ Err IoFault.Endless → reader.new.made ≡ MOST_READS }
    ensures faults { IfErr result (λ fault. fault ≢ IoFault.Output) }
{
    let mut room = FieldRoom::new(alloc)?;
    read_request_in(alloc, reader, &mut room)
}

/// Reads a request as `read_request` does, with this room for the fields of its head.
pub fn read_request_in<R: Read>(
    alloc: Global,
    reader: &mut CountedReader<R>,
    room: &mut FieldRoom,
) -> Result<Result<Request, RequestFault>, IoFault>
    ensures read { IfOk result (λ told.
        IsReadFrom (heard R.remaining reader.old) (heard R.remaining reader.new) (λ bytes. Requests bytes told)) }
    ensures bounded { TakesAtMost (MOST_HEAD_BYTES + 1 + MOST_INPUT_BYTES)
        (heard R.remaining reader.old) (heard R.remaining reader.new) }
    ensures endless { result ≡ Err IoFault.Endless → reader.new.made ≡ MOST_READS }
    ensures faults { IfErr result (λ fault. fault ≢ IoFault.Output) }
{
    let start = reader.handed().len();
    let fields = room.fields.as_mut_slice();
    match read_head(reader, start, fields)? {
        Head::BadRequest => Ok(Err(RequestFault::BadRequest)),
        Head::TooLarge => Ok(Err(RequestFault::TooLarge)),
        Head::Whole(spans) => read_behind(alloc, reader, start, fields, spans),
    }
}

/// Reads the rest of the request whose head begins after the first `start` of the bytes that the reader handed over.
fn read_behind<R: Read>(
    alloc: Global,
    reader: &mut CountedReader<R>,
    start: usize,
    fields: &[HeaderSpan],
    spans: RequestSpans,
) -> Result<Result<Request, RequestFault>, IoFault>
    requires start { start ≤ length reader.old.handed }
    requires within { IsRequestWithin (front (drop start reader.old.handed)) fields.now spans }
    ensures read { (head : RequestHead) → IsRequestAt (front (drop start reader.old.handed)) fields.now spans head
        → IfOk result (λ told.
        IsReadFrom (heard R.remaining reader.old) (heard R.remaining reader.new)
        (λ more. told ≡ request_told head
        (drop (length (print_request head)) (drop start reader.old.handed) ++ more))) }
    ensures bounded { TakesAtMost MOST_INPUT_BYTES (heard R.remaining reader.old) (heard R.remaining reader.new) }
    ensures endless { result ≡ Err IoFault.Endless → reader.new.made ≡ MOST_READS }
    ensures faults { IfErr result (λ fault. fault ≢ IoFault.Output) }
{
    match read_asked(front_of(reader.handed_from(start)), fields, spans) {
        Ok(asked) => read_rest(alloc, reader, start, asked),
        Err(fault) => Ok(Err(fault)),
    }
}

/// Reads the body of a request whose head was read. Its first bytes may have come with the head.
fn read_rest<R: Read>(
    alloc: Global,
    reader: &mut CountedReader<R>,
    start: usize,
    asked: HeadSpans,
) -> Result<Result<Request, RequestFault>, IoFault>
    requires start { start ≤ length reader.old.handed }
    requires within { IsAskedWithin (length (drop start reader.old.handed)) asked }
    ensures read { IfOk result (λ told.
        IsReadFrom (heard R.remaining reader.old) (heard R.remaining reader.new)
        (λ more. told ≡ rest_told (asked_at (drop start reader.old.handed) asked)
        (drop asked.head (drop start reader.old.handed) ++ more))) }
    ensures bounded { TakesAtMost MOST_INPUT_BYTES (heard R.remaining reader.old) (heard R.remaining reader.new) }
    ensures endless { result ≡ Err IoFault.Endless → reader.new.made ≡ MOST_READS }
    ensures faults { IfErr result (λ fault. fault ≢ IoFault.Output) }
{
    let begun = (reader.handed_from(start).len() - asked.head).min(asked.length);
    let missing = asked.length - begun;
    if reader.read_at_most(missing)? < missing {
        return Ok(Err(RequestFault::BadRequest));
    }
    Ok(Ok(request_of(alloc, reader.handed_from(start), asked)?))
}

/// The request of a head at the start of these bytes, with its body after it.
fn request_of(alloc: Global, bytes: &[u8], asked: HeadSpans) -> Result<Request, AllocError>
    requires within { IsAskedWithin (length bytes.now) asked }
    requires body { asked.head + asked.length ≤ length bytes.now }
    ensures { IfOk result (λ request.
        request ≡ request_of (asked_at bytes.now asked) (take asked.length (drop asked.head bytes.now))) }
{
    let method = Vec::from_slice(alloc, asked.method.of(bytes))?;
    let target = Vec::from_slice(alloc, asked.target.of(bytes))?;
    let member = match asked.member {
        Some(member) => Some(Vec::from_slice(alloc, member.of(bytes))?),
        None => None,
    };
    let body = Vec::from_slice(alloc, &bytes[asked.head..asked.head + asked.length])?;
    Ok(Request::new(method, target, member, body))
}
