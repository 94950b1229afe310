//! The rows of single things in the tables of a register.
//!
//! **The row of a thing is the one that its definition gives. Rows of things, in any order, are read back as these
//! things. A packed list is read as the items that were written, and nothing else reads as one.**
//!
//! Scope of this crate: what columns hold; the rows of criteria, entries, publisher records, nodes, edges, reviews and
//! pairs with their classes; readers of the facts of packages, policies, projects, members and reviews from their rows;
//! which of these can be held; packed lists, in which a column keeps many values. It needs no register, so it is proved
//! beside the register and not after it. `vet_rows` has the rows of a whole state, and those of recorded moves and of
//! `meta`, whose types the register defines.
//!
//! For example, an entry for `serde 1.0.1` has that name and that version in its row, as texts. A row with another text
//! there belongs to another entry, or to none.
#![tactic(auto)]

pub mod laws;
pub mod packed;
pub mod packed_item;
pub mod packed_names;
mod packed_text;
pub mod read;
pub mod rows_of;
