//! What the program of tests answers without a register: a line for a value, and what projects demand.
//!
//! It is not part of the product. `values` has the lines that ask for a value, `line` says how their words are written,
//! and `workspace` has the lines of a run that asks what projects demand.
#![tactic(auto)]

mod days;
pub mod ending;
pub mod fault;
mod files;
mod known;
pub mod line;
pub mod lists;
pub mod name_lists;
mod policies;
pub mod projects;
mod searches;
mod sets;
mod steps;
pub mod tables;
pub mod values;
mod versions;
pub mod workspace;
mod written;
