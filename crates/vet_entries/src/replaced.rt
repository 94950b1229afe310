//! Laws of the entries held of a source, one's own or a peer, after others replace them. Some of those held may be kept
//! in any case. Each law does nothing.
ghost use Rattle.vet_entries.specs.ReplacedLaws.{EntriesAreHeld, EntriesAreTaken, EntriesKeepNumbers, EntriesKeepOrder};
ghost use Rattle.vet_entries.specs.ReplacedLaws.{EntriesStandOnce, NothingNew};

/// If the numbers increase and are below the next one, so are those afterwards, below the next one afterwards.
pub fn entries_keep_order()
    ensures { EntriesKeepOrder }
{}

/// Each entry afterwards was held with its number, or has a new number.
pub fn entries_keep_numbers()
    ensures { EntriesKeepNumbers }
{}

/// Each entry afterwards was held and is kept in any case, or is one of those given, as of the source.
pub fn entries_are_taken()
    ensures { EntriesAreTaken }
{}

/// Afterwards, the entries given are held, as of the source, and those that are kept in any case, and nothing else.
pub fn entries_are_held()
    ensures { EntriesAreHeld }
{}

/// If each entry given is an own one and occurs once, and no two held ones are the same, then no two are the same
/// afterwards, and there are as many as were given and as are kept without being given.
pub fn entries_stand_once()
    ensures { EntriesStandOnce }
{}

/// If the entries given are those held, apart from those that are kept in any case, nothing changes and none is new.
pub fn nothing_new()
    ensures { NothingNew }
{}
