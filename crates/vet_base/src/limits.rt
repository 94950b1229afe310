//! The limits of the register.
ghost use Rattle.std.specs.Prelude.{◌≡◌};

/// The most bytes of a name.
pub const MOST_NAME_BYTES: usize = 64;

/// The most bytes of a version's text.
pub const MOST_VERSION_BYTES: usize = 256;

/// The most bytes of a requirement's text.
pub const MOST_REQ_BYTES: usize = 256;

/// The number of hexadecimal digits of a revision.
pub const REVISION_DIGITS: usize = 40;

/// The most bytes of a free text, such as notes or a url.
pub const MOST_TEXT_BYTES: usize = 65_536;

/// The most characters of a path or a key that a refusal prints.
pub const MOST_KEY_BYTES: usize = 200;

/// The most bytes of an audits file, of standard input or of a request's body.
pub const MOST_INPUT_BYTES: usize = 8_388_608;

/// The most times that one run reads from its input.
pub const MOST_READS: u32 = 10_000_000;

/// The most criteria of a table, including the two built-in ones.
pub const MOST_CRITERIA: usize = 128;

/// The most further criteria in the file of a peer.
pub const MOST_PEER_CRITERIA: usize = 126;

/// The most peers.
pub const MOST_PEERS: usize = 64;

/// The most entries.
pub const MOST_ENTRIES: usize = 100_000;

/// The most publisher records.
pub const MOST_PUBLISHERS: usize = 100_000;

/// The most days from the day of the command that adds a window to its last day.
pub const MOST_WINDOW_DAYS: u32 = 366;

/// The most policies.
pub const MOST_POLICIES: usize = 10_000;

/// The most projects.
pub const MOST_PROJECTS: usize = 64;

/// The most nodes of a project.
pub const MOST_NODES: usize = 10_000;

/// The most edges of a project.
pub const MOST_EDGES: usize = 100_000;

/// The most members.
pub const MOST_MEMBERS: usize = 1_000;

/// The most reviews.
pub const MOST_REVIEWS: usize = 100_000;

/// The greatest moves limit that a register may have.
pub const MOST_MOVES: usize = 1_000_000;

/// The last step of the register.
pub const LAST_STEP: u64 = 9_223_372_036_854_775_807;

/// The last number of an entry or of a review.
pub const LAST_NUMBER: u64 = 9_223_372_036_854_775_806;

/// The last year of a day.
pub const LAST_YEAR: u16 = 9_999;

/// The day number of 0000-01-01; that of 1970-01-01 is 0.
pub const FIRST_DAY_NUMBER: i32 = -719_528;

/// The day number of 9999-12-31.
pub const LAST_DAY_NUMBER: i32 = 2_932_896;

/// Each of these limits is the number that the rules state. They are repeated here, so that the prover refuses a slip
/// in a constant, which most proofs would not notice. Does nothing.
pub fn limits_are_as_ruled()
    ensures name { MOST_NAME_BYTES ≡ 64 }
    ensures version { MOST_VERSION_BYTES ≡ 256 }
    ensures requirement { MOST_REQ_BYTES ≡ 256 }
    ensures revision { REVISION_DIGITS ≡ 40 }
    ensures text { MOST_TEXT_BYTES ≡ 65536 }
    ensures key { MOST_KEY_BYTES ≡ 200 }
    ensures input { MOST_INPUT_BYTES ≡ 8388608 }
    ensures reads { MOST_READS ≡ 10000000 }
    ensures criteria { MOST_CRITERIA ≡ 128 }
    ensures peer_criteria { MOST_PEER_CRITERIA ≡ 126 }
    ensures peers { MOST_PEERS ≡ 64 }
    ensures entries { MOST_ENTRIES ≡ 100000 }
    ensures publishers { MOST_PUBLISHERS ≡ 100000 }
    ensures window { MOST_WINDOW_DAYS ≡ 366 }
    ensures policies { MOST_POLICIES ≡ 10000 }
    ensures projects { MOST_PROJECTS ≡ 64 }
    ensures nodes { MOST_NODES ≡ 10000 }
    ensures edges { MOST_EDGES ≡ 100000 }
    ensures members { MOST_MEMBERS ≡ 1000 }
    ensures reviews { MOST_REVIEWS ≡ 100000 }
    ensures moves { MOST_MOVES ≡ 1000000 }
    ensures step { LAST_STEP ≡ 9223372036854775807 }
    ensures number { LAST_NUMBER ≡ 9223372036854775806 }
    ensures year { LAST_YEAR ≡ 9999 }
{}
