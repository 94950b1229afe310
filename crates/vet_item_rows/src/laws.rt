//! Laws of packed lists: each is a function that does nothing, and what it ensures is a fact.
ghost use Rattle.vet_item_rows.specs.PackedLaws.{PackedOnce, ValuesAreReadBack};

use crate::packed_item::PackedItem;

/// Two lists of values that a column keeps as the same bytes are the same list. Does nothing.
pub fn packed_lists_are_read_back()
    ensures { PackedOnce }
{}

/// Values of which each is read from its bytes are read from their packed list, and as nothing else. Does nothing.
pub fn values_are_read_back<T: PackedItem>()
    ensures { ValuesAreReadBack T.bytes_of T.read_bytes }
{}
