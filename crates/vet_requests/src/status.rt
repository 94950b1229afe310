//! The statuses of replies.
ghost use Rattle.std.specs.Prelude.{◌≡◌, ◌≤◌, length};
ghost use Rattle.vet_requests.specs.Status.{refusal_status, status_number, status_phrase};

use vet_base::refusal::Refusal;

/// A status of a reply (RFC 9110, status codes). A new one adds a row to each table here, and one to the definition.
#[derive(Clone, Copy, PartialEq, Eq)]
pub enum Status {
    /// The request was answered or carried out.
    Ok,
    /// The request, or a text in it, is malformed.
    BadRequest,
    /// Nothing is at the target.
    NotFound,
    /// The target exists, but does not have this method.
    MethodNotAllowed,
    /// The command conflicts with what the register holds.
    Conflict,
    /// The request is longer than a limit, or something in it exceeds one.
    ContentTooLarge,
    /// The request is of a kind that is not served.
    NotImplemented,
    /// Memory ran out, or the store refused.
    ServiceUnavailable,
}

impl Status {
    /// The number of the status, from 200 to 503.
    pub fn number(self) -> u16
        ensures number { result ≡ status_number self }
        ensures three_digits { result ≤ 999 }
    {
        match self {
            Status::Ok => 200,
            Status::BadRequest => 400,
            Status::NotFound => 404,
            Status::MethodNotAllowed => 405,
            Status::Conflict => 409,
            Status::ContentTooLarge => 413,
            Status::NotImplemented => 501,
            Status::ServiceUnavailable => 503,
        }
    }

    /// The phrase after the number.
    pub fn phrase(self) -> &'static str
        ensures phrase { result.now ≡ status_phrase self }
        ensures short { length result.now ≤ 19 }
    {
        match self {
            Status::Ok => "OK",
            Status::BadRequest => "Bad Request",
            Status::NotFound => "Not Found",
            Status::MethodNotAllowed => "Method Not Allowed",
            Status::Conflict => "Conflict",
            Status::ContentTooLarge => "Content Too Large",
            Status::NotImplemented => "Not Implemented",
            Status::ServiceUnavailable => "Service Unavailable",
        }
    }

    /// The status of a refusal: 400 if a text is at fault, 413 if something exceeds a limit, 503 if memory ran out or
    /// the store refused, and 409 for all others.
    pub fn of_refusal(refusal: &Refusal) -> Status
        ensures { result ≡ refusal_status refusal.now }
    {
        match refusal {
            Refusal::BadName
            | Refusal::BadVersion
            | Refusal::BadRequirement
            | Refusal::BadDay
            | Refusal::BadDelta
            | Refusal::TomlRefused
            | Refusal::CsvRefused(_)
            | Refusal::FieldRefused(_, _) => Status::BadRequest,
            Refusal::TooLarge(_) => Status::ContentTooLarge,
            Refusal::NoMemory | Refusal::StoreRefused => Status::ServiceUnavailable,
            _ => Status::Conflict,
        }
    }
}
