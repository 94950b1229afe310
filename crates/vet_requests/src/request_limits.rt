//! The limits of requests.
ghost use Rattle.std.specs.Prelude.{◌≡◌};

/// The most bytes of a head.
pub const MOST_HEAD_BYTES: usize = 16_384;

/// The most fields of a head.
pub const MOST_FIELDS: usize = 64;

/// The most digits of the length of a body.
pub const MOST_LENGTH_DIGITS: usize = 19;

/// Each limit is the number in the rules. It is stated here once more, so that a slip in a constant, with which most
/// proofs would still hold, is refused. Does nothing.
pub fn request_limits_are_as_ruled()
    ensures head { MOST_HEAD_BYTES ≡ 16384 }
    ensures fields { MOST_FIELDS ≡ 64 }
    ensures digits { MOST_LENGTH_DIGITS ≡ 19 }
{}
