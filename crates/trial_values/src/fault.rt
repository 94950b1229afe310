//! Why a line has no answer of its own, or a run ends before its end.

use std::alloc::{AllocError, AllocFailed};
use std::io;
use vet_base::refusal::Refusal;

/// Why a line has no answer of its own, or a run ends before its end.
pub enum Fault {
    /// What it asks for is refused.
    Refused(Refusal),
    /// It is no line of the language, or these are no words of the command line.
    NotUnderstood,
    /// A stream, the network or the clock failed.
    Stream,
}

impl Drop for Fault {
    fn drop(self) {
        match self {
            Fault::Refused(_) => {}
            Fault::NotUnderstood => {}
            Fault::Stream => {}
        }
    }
}

impl From<io::Error> for Fault {
    fn from(_error: io::Error) -> Fault {
        Fault::Stream
    }
}

impl From<Refusal> for Fault {
    fn from(refusal: Refusal) -> Fault {
        Fault::Refused(refusal)
    }
}

impl From<AllocError> for Fault {
    fn from(_error: AllocError) -> Fault {
        Fault::Refused(Refusal::NoMemory)
    }
}

impl<T: Drop> From<AllocFailed<T>> for Fault {
    fn from(_error: AllocFailed<T>) -> Fault {
        Fault::Refused(Refusal::NoMemory)
    }
}
