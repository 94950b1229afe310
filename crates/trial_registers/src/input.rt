//! The text on standard input.

use std::alloc::Global;
use std::io::{ErrorKind, Read};

/// The most bytes of an input.
pub const MOST_BYTES: usize = 33_554_432;

/// What is on the input.
pub enum Input {
    /// This text.
    Text(String),
    /// More than 33,554,432 bytes, or bytes that are not text or can't be read.
    Other,
    /// Memory ran out while it was read.
    NoMemory,
}

/// Reads the input to its end.
pub fn read_input<R: Read>(alloc: Global, reader: &mut R) -> Input {
    let mut text = String::new(alloc);
    match reader.take(MOST_BYTES as u64 + 1).read_to_string(&mut text) {
        Ok(_) => {
            if text.len() > MOST_BYTES {
                return Input::Other;
            }
            Input::Text(text)
        }
        Err(error) => {
            if error.kind() == ErrorKind::OutOfMemory {
                return Input::NoMemory;
            }
            Input::Other
        }
    }
}
