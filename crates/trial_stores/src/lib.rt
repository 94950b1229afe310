//! Registers in databases, for the program of tests: how it runs them.
//!
//! It is no part of the product. The program `trials` opens the database files, and `trial_registers` has what these
//! registers are given and what is printed of them. `stored` runs one in a database, `stops` one in files in memory of
//! which one stops, and `at_once` one that is made with its commands.
#![tactic(auto)]

pub mod at_once;
pub mod stops;
pub mod stored;
