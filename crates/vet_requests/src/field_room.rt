//! Room for the fields of a head.
ghost use Rattle.std.specs.Prelude.{◌≡◌, vec_len};
ghost use Rattle.vet_requests.specs.declared.field_room.TheConstants.{FIELD_ROOM};

use httparse::spans::{EMPTY_HEADER_SPAN, HeaderSpan};
use std::alloc::{AllocError, Global};

/// Room for the fields of any head: each takes at least two bytes, and the empty line after them one.
pub(crate) const FIELD_ROOM: usize = 8_193;

/// Room for the fields of a head. It is made once for many requests.
#[derive(Drop)]
pub struct FieldRoom {
    pub(crate) fields: Vec<HeaderSpan>,
    ghost whole: { vec_len fields ≡ FIELD_ROOM },
}

impl FieldRoom {
    /// Room for the fields of any head: 256 kB.
    pub fn new(alloc: Global) -> Result<FieldRoom, AllocError> {
        let count = FIELD_ROOM;
        let fields = vec![in alloc; EMPTY_HEADER_SPAN; count]?;
        Ok(FieldRoom { fields })
    }
}
