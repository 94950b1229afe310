//! Faults of requests that are found before the route is looked at.
ghost use Rattle.std.specs.Prelude.{◌≡◌};
ghost use Rattle.vet_requests.specs.RequestFault.{fault_status};

use crate::status::Status;

/// A fault of a request that is found before its route is looked at.
#[derive(Clone, Copy)]
pub enum RequestFault {
    /// It is not a request, its body was cut short, or a field that may occur once is repeated or malformed.
    BadRequest,
    /// Its head or its body is longer than the limit, or it has too many fields.
    TooLarge,
    /// Its method is `HEAD`, or its body is coded for its transfer.
    NotImplemented,
}

impl RequestFault {
    /// The status of the reply, which says nothing more.
    pub fn status(self) -> Status
        ensures { result ≡ fault_status self }
    {
        match self {
            RequestFault::BadRequest => Status::BadRequest,
            RequestFault::TooLarge => Status::ContentTooLarge,
            RequestFault::NotImplemented => Status::NotImplemented,
        }
    }
}
