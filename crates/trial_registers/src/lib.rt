//! Registers of the program of tests: what it gives them, how it runs them and what it prints of them.
//!
//! It is not part of the product. `items` says what may be on the input, `runs` what runs commands on a register, and
//! `run` gives it the items. A register in memory is run here, and one in a file by the program.
#![tactic(auto)]

mod ahead;
mod held;
mod held_desk;
mod held_projects;
mod held_settings;
mod held_texts;
pub mod input;
pub mod items;
mod noting;
mod packed;
mod print;
pub mod relay;
mod reports;
pub mod run;
pub mod runs;
pub mod setting;
