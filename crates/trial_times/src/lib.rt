//! Times of commands to a register in memory, by the clock, for the benches.
//!
//! It is not part of the product. The program `trials` has the words that ask for them, and says what is printed.
#![tactic(auto)]

mod clock;
pub mod commands;
pub mod contents;
pub mod demand_rounds;
pub mod desk_rounds;
pub mod files;
pub mod import_rounds;
pub mod lapse_rounds;
mod project;
pub mod replacements;
mod reviews;
mod workspace;
