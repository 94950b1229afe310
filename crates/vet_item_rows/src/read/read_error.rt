//! Why rows could not be read.
ghost use Rattle.std.specs.Prelude.{◌≡◌};
ghost use Rattle.vet_item_rows.specs.ReadBack.{found_or_no_register};

use std::alloc::{AllocError, AllocFailed};
use vet_base::refusal::Refusal;

/// Why rows could not be read.
#[derive(Clone, Copy)]
pub enum ReadError {
    /// The rows do not belong to any register.
    NotARegister,
    /// Memory ran out.
    NoMemory,
}

impl From<AllocError> for ReadError {
    ghost use Rattle.std.specs.Prelude.{◌≡◌};
    ghost use Rattle.vet_item_rows.specs.declared.read.read_error.ReadError.TheVariants.{NoMemory};

    ghost from_gives = { λ _ e. e ≡ NoMemory };

    fn from(_error: AllocError) -> ReadError {
        ReadError::NoMemory
    }
}

impl<T: Drop> From<AllocFailed<T>> for ReadError {
    ghost use Rattle.std.specs.Prelude.{◌≡◌};
    ghost use Rattle.vet_item_rows.specs.declared.read.read_error.ReadError.TheVariants.{NoMemory};

    ghost from_gives = { λ _ e. e ≡ NoMemory };

    fn from(_error: AllocFailed<T>) -> ReadError {
        ReadError::NoMemory
    }
}

impl From<Refusal> for ReadError {
    ghost use Rattle.std.specs.Prelude.{◌≡◌};
    ghost use Rattle.vet_item_rows.specs.ReadBack.{read_error_of};

    ghost from_gives = { λ refusal e. e ≡ read_error_of refusal };

    fn from(refusal: Refusal) -> ReadError {
        match refusal {
            Refusal::NoMemory => ReadError::NoMemory,
            _ => ReadError::NotARegister,
        }
    }
}

impl From<ReadError> for Refusal {
    ghost use Rattle.std.specs.Prelude.{◌≡◌};
    ghost use Rattle.vet_item_rows.specs.ReadBack.{refusal_of};

    ghost from_gives = { λ error e. e ≡ refusal_of error };

    fn from(error: ReadError) -> Refusal {
        match error {
            ReadError::NotARegister => Refusal::NotARegister,
            ReadError::NoMemory => Refusal::NoMemory,
        }
    }
}

/// What was found, or `NotARegister` if nothing was. Takes no memory.
pub fn found<T>(found: Option<T>) -> Result<T, ReadError>
    ensures { result ≡ found_or_no_register found }
{
    found.ok_or(ReadError::NotARegister)
}
