//! Reading values of types that the register defines from their rows. `vet_item_rows` reads all others.
pub(crate) mod meta;
pub(crate) mod moves;
