//! Times of a register in a database, by the clock, for the benches.
//!
//! It is not part of the product. The program `trials` opens the database files. `memory_rounds` and `stored_rounds`
//! time commands and openings, and `opened_parts` the calls of which an opening consists.
#![tactic(auto)]

pub mod memory_rounds;
pub mod opened_parts;
pub mod stored_rounds;
mod written;
