//! The tables of a register: their forms, whether a database has them, and what statements do to them.
//!
//! **A statement changes the cells in the tables as its form says, and leaves everything else as it is. A table passes
//! only if it is the one that SQLite keeps of its form, in a tree of its own, touched by no other index and by no
//! foreign key.**
//!
//! Scope of this crate: names, columns, keys and statements of the fourteen tables, as data, and which of them each
//! version has; whether the names of the tables are free, and whether the tables are there; cells that are put, removed
//! and read; which of some items are among others. It is below the register, so that the proofs about SQLite, which
//! take long, run beside those of the register and not after them.
//!
//! For example, a table `peers` whose column `url` takes NULL is not one of these tables.
#![tactic(auto)]

mod by_ref;
pub mod cell;
pub mod cells;
pub mod column;
pub mod find;
pub mod form;
mod forms;
mod has_form;
pub mod rows;
pub mod same_items;
pub mod same_rows;
pub mod sequence;
pub mod statements;
pub mod table_name;
pub mod version;
