//! The commands on a register in a database: `apply`, `report`, `export` and `new`.
//!
//! **The answer, and the content of the database afterwards, are those of the definition, given the words, the input
//! and what the path gives. If a run ends with a fault, nothing was written or, if a write failed, a prefix of the
//! answer.**
//!
//! Scope of this crate: these commands over any `Databases`. Their words are parsed by `vetd_words`. Databases in
//! files, and the command that serves clients, belong to the crates above.
//!
//! For example, `vetd apply` of a document that adds a member prints `done 1 moves 0` on a new register, and `already`
//! if it is given again.
#![tactic(auto)]

pub mod applying;
pub mod databases;
pub mod making;
pub mod viewing;
