//! A register in the tables of a database.
//!
//! **After every list of commands the tables have the rows of the machine after only the commands that were done. A
//! change of rows is one transaction: the tables have all of it or none of it, after a crash too.**
//!
//! Scope of this crate: statements on the tables and their transactions, what the tables hold, and the store. A store
//! is made with the tables of an empty register, or opened from the tables of a register, of either version. It runs
//! commands.
//!
//! For example, a file in which one class in `standing` was changed by hand is refused with 31 NotARegister, and stays
//! as it is.
#![tactic(auto)]

pub mod apply;
pub mod change;
pub mod laws;
pub mod memory;
pub mod read;
mod read_table;
pub mod refused;
pub mod statements;
pub mod store;
