//! The meaning of a head's fields.
ghost use Rattle.std.specs.Prelude.{◌≡◌, ◌≤◌, All, IfOk, IfSome, codes, if◌then◌else◌, length, map};
ghost use Rattle.httparse.specs.Grammar.{RequestHead};
ghost use Rattle.httparse.specs.Spans.{IsHeaderWithin, IsRequestAt, IsRequestWithin, IsWithin, header_bytes};
ghost use Rattle.vet_requests.specs.Fields.{IsAskedWithin, IsOccurrence, asked_at, count_told, form_told, head_told};
ghost use Rattle.vet_requests.specs.Fields.{is_number, length_told, member_at, member_told};
ghost use Rattle.vet_requests.specs.Fields.{number_of, same_name, values_of};
ghost use Rattle.vet_requests.specs.RequestFault.{Tells};

use crate::request_fault::RequestFault;
use crate::request_limits::{MOST_FIELDS, MOST_LENGTH_DIGITS};
use httparse::spans::{HeaderSpan, RequestSpans, Span};
use vet_base::limits::MOST_INPUT_BYTES;

/// The fields of a name: none, the value of the only one by its place, or more than one.
#[derive(Clone, Copy)]
pub(crate) enum Occurrence {
    Absent,
    Once(Span),
    Again,
}

/// The request of a head, by the places of its parts.
#[derive(Clone, Copy)]
pub(crate) struct HeadSpans {
    pub(crate) method: Span,
    pub(crate) target: Span,
    pub(crate) member: Option<Span>,
    /// The length of the head, in bytes.
    pub(crate) head: usize,
    /// The length of the body, in bytes.
    pub(crate) length: usize,
}

/// Reads the request of the head whose parts are at these places, or its first fault.
pub(crate) fn read_asked(
    bytes: &[u8],
    fields: &[HeaderSpan],
    spans: RequestSpans,
) -> Result<HeadSpans, RequestFault>
    requires { IsRequestWithin bytes.now fields.now spans }
    ensures told { (head : RequestHead) → IsRequestAt bytes.now fields.now spans head
        → Tells (asked_at bytes.now) (head_told head) result }
    ensures within { IfOk result (IsAskedWithin (length bytes.now)) }
    ensures head { IfOk result (λ asked. asked.head ≡ spans.len) }
{
    let fields = &fields[..spans.headers];
    check_count(fields)?;
    check_form(bytes, spans.method.of(bytes), fields)?;
    let length = read_length(bytes, fields)?;
    let member = read_member(bytes, fields)?;
    Ok(HeadSpans {
        method: spans.method,
        target: spans.path,
        member,
        head: spans.len,
        length,
    })
}

/// Refuses more fields than a head may have.
fn check_count(fields: &[HeaderSpan]) -> Result<(), RequestFault>
    ensures { result ≡ count_told (length fields.now) }
{
    if fields.len() > MOST_FIELDS {
        return Err(RequestFault::TooLarge);
    }
    Ok(())
}

/// Refuses the method `HEAD`, and any `Transfer-Encoding` field.
fn check_form(bytes: &[u8], method: &[u8], fields: &[HeaderSpan]) -> Result<(), RequestFault>
    requires { All (IsHeaderWithin (length bytes.now)) fields.now }
    ensures { result ≡ form_told method.now
        (values_of (codes "transfer-encoding") (map (header_bytes bytes.now) fields.now)) }
{
    if method == b"HEAD".as_slice() {
        return Err(RequestFault::NotImplemented);
    }
    match find_field(bytes, fields, "transfer-encoding") {
        Occurrence::Absent => Ok(()),
        Occurrence::Once(_) | Occurrence::Again => Err(RequestFault::NotImplemented),
    }
}

/// The length of the body, or the fault of `Content-Length`.
fn read_length(bytes: &[u8], fields: &[HeaderSpan]) -> Result<usize, RequestFault>
    requires { All (IsHeaderWithin (length bytes.now)) fields.now }
    ensures told { result ≡ length_told
        (values_of (codes "content-length") (map (header_bytes bytes.now) fields.now)) }
    ensures short { IfOk result (λ length. length ≤ MOST_INPUT_BYTES) }
{
    let text = match find_field(bytes, fields, "content-length") {
        Occurrence::Absent => return Ok(0),
        Occurrence::Once(span) => span.of(bytes),
        Occurrence::Again => return Err(RequestFault::BadRequest),
    };
    match number(text) {
        None => Err(RequestFault::BadRequest),
        Some(length) if length > MOST_INPUT_BYTES as u64 => Err(RequestFault::TooLarge),
        Some(length) => Ok(length as usize),
    }
}

/// The place of the value of `Vet-Member`, if there is such a field, or the fault that there are several.
fn read_member(bytes: &[u8], fields: &[HeaderSpan]) -> Result<Option<Span>, RequestFault>
    requires { All (IsHeaderWithin (length bytes.now)) fields.now }
    ensures told { Tells (member_at bytes.now) (member_told
        (values_of (codes "vet-member") (map (header_bytes bytes.now) fields.now))) result }
    ensures within { IfOk result (λ member. IfSome member (IsWithin (length bytes.now))) }
{
    match find_field(bytes, fields, "vet-member") {
        Occurrence::Absent => Ok(None),
        Occurrence::Once(span) => Ok(Some(span)),
        Occurrence::Again => Err(RequestFault::BadRequest),
    }
}

/// Finds the fields of a name.
fn find_field(bytes: &[u8], fields: &[HeaderSpan], name: &str) -> Occurrence
    requires { All (IsHeaderWithin (length bytes.now)) fields.now }
    ensures { IsOccurrence bytes.now (values_of name.now (map (header_bytes bytes.now) fields.now)) result }
{
    let mut found = Occurrence::Absent;
    'fields: for field in fields {
        if has_name(bytes, *field, name) {
            match found {
                Occurrence::Absent => found = Occurrence::Once(field.value),
                _ => return Occurrence::Again,
            }
        }
    }
    found
}

/// Whether a field has a name, without regard to the case of letters.
fn has_name(bytes: &[u8], field: HeaderSpan, name: &str) -> bool
    requires { IsHeaderWithin (length bytes.now) field }
    ensures { result ≡ same_name (header_bytes bytes.now field).0 name.now }
{
    field.name.of(bytes).eq_ignore_ascii_case(name.as_bytes())
}

/// The number that 1 to 19 digits write. `None` for any other text.
fn number(text: &[u8]) -> Option<u64>
    ensures { result ≡ (if is_number text.now then Some (number_of text.now) else None) }
{
    if text.is_empty() || text.len() > MOST_LENGTH_DIGITS {
        return None;
    }
    let mut total = 0u64;
    'digits: for byte in text {
        if !byte.is_ascii_digit() {
            return None;
        }
        total = 10 * total + u64::from(*byte - b'0');
    }
    Some(total)
}
