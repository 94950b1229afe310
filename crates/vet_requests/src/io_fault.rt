//! The reasons why a run ends without an answer.
ghost use Rattle.std.specs.Prelude.{◌≡◌, Some};

use std::alloc::AllocError;
use std::fmt;

/// The reason why a run ended without an answer.
#[derive(Clone, Copy, Debug, PartialEq, Eq)]
pub enum IoFault {
    /// A read failed.
    Input,
    /// A write failed, or took nothing.
    Output,
    /// The run made as many reads as it may, and the input had not ended.
    Endless,
    /// Memory ran out.
    NoMemory,
}

impl From<AllocError> for IoFault {
    ghost use Rattle.vet_requests.specs.declared.io_fault.IoFault.TheVariants.{NoMemory};

    ghost from_gives = { λ _ fault. fault ≡ NoMemory };

    fn from(_error: AllocError) -> IoFault {
        IoFault::NoMemory
    }
}

impl fmt::Display for IoFault {
    ghost use Rattle.vet_requests.specs.IoFault.{fault_text};

    ghost output = { λ fault. Some (fault_text fault) };

    fn fmt<W: fmt::Write>(&self, f: &mut fmt::Formatter<W>) -> fmt::Result {
        f.write_str(match self {
            IoFault::Input | IoFault::Endless => "fault: input",
            IoFault::Output => "fault: output",
            IoFault::NoMemory => "refused 29 NoMemory",
        })
    }
}
