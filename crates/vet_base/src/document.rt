//! The limit on the length of a document.
ghost use Rattle.std.specs.Prelude.{◌≡◌};
ghost use Rattle.vet_base.specs.Document.{length_told};

use crate::limits::MOST_INPUT_BYTES;
use crate::refusal::{Limit, Refusal};

/// Checks the length of a file, of standard input or of a request's body. Refused: `TooLarge` of `input` if it has
/// more than 8,388,608 bytes.
pub fn check_length(document: &[u8]) -> Result<(), Refusal>
    ensures { result ≡ length_told document.now }
{
    if document.len() > MOST_INPUT_BYTES {
        return Err(Refusal::TooLarge(Limit::Input));
    }
    Ok(())
}
