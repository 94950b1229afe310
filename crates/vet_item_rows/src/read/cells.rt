//! The cells of a row, by their places. A place without a cell of the type that is asked for gives `NotARegister`.
ghost use Rattle.std.specs.List.{slice_get};
ghost use Rattle.std.specs.Prelude.{◌≡◌, ℤ, IsOkAnd, Ok, Some};
ghost use Rattle.vet_base.specs.Words as words;

use crate::read::read_error::ReadError;
use vet_tables::cell::Cell;
use vet_tables::sequence::Row;

/// The number at a place. Takes no memory.
pub(crate) fn int_at(row: &Row, at: usize) -> Result<i64, ReadError>
    ensures { (n : ℤ) → slice_get row.now at ≡ Some (Cell.Int n) → result ≡ Ok n }
{
    match row.as_slice().get(at) {
        Some(Cell::Int(number)) => Ok(*number),
        _ => Err(ReadError::NotARegister),
    }
}

/// The text at a place. Takes no memory.
pub(crate) fn text_at(row: &Row, at: usize) -> Result<&str, ReadError>
    ensures { (t : words.Text) → slice_get row.now at ≡ Some (Cell.Text t) → IsOkAnd result (λ text. text.now ≡ t) }
{
    match row.as_slice().get(at) {
        Some(Cell::Text(text)) => Ok(text.as_str()),
        _ => Err(ReadError::NotARegister),
    }
}

/// The bytes at a place. Takes no memory.
pub(crate) fn blob_at(row: &Row, at: usize) -> Result<&[u8], ReadError>
    ensures { (b : words.Bytes) → slice_get row.now at ≡ Some (Cell.Blob b) → IsOkAnd result (λ blob. blob.now ≡ b) }
{
    match row.as_slice().get(at) {
        Some(Cell::Blob(blob)) => Ok(blob.as_slice()),
        _ => Err(ReadError::NotARegister),
    }
}
