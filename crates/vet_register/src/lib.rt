//! The register of audits.
//!
//! **After every list of commands the register's state is that of the machine which keeps only the accepted ones, and
//! each demanded pair has the class that chains of entries give it.**
//!
//! Scope of this crate: the machine with its commands, including those to the review desk, over any keeper of the
//! classes; and the class of one pair from an audits file. Its signatures use types of the lower crates, which callers
//! name there.
//!
//! For example, a project that demands `serde 1.0.1` is loaded with the outcome `done 1 moves 2`; a full entry for
//! that version then has the outcome `done 2 number 1 moves 2`, and the same entry again `already 1`.
#![tactic(auto)]

mod at_desk;
pub mod change;
pub mod class_of_file;
pub mod command;
mod edits;
mod files_comparison;
mod files_held;
mod files_verdict;
mod flow;
pub mod held;
pub mod held_files;
pub mod laws;
pub mod moves;
mod plan;
pub mod register;
mod restored;
mod sound_entries;
mod sound_held;
mod sound_moves;
mod sound_numbers;
mod sound_peers;
pub mod state;
mod today;
pub mod tool_settings;
mod touching;
mod verdict;
