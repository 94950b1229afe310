//! The rows of a register's tables.
//!
//! **`rows_of` returns the rows of a register's state, one for each thing that is held. `row_changes` returns the
//! changes that lead from these to the rows of the state after a command. `state_of` returns the state of such rows, in
//! any order.**
//!
//! Scope of this crate: what a change of rows makes of the tables; the rows of a state in tables of either version; the
//! changes of rows that a prepared change of the register makes; the state of rows; and that a register's state can be
//! held in rows. The rows of single things are in `vet_item_rows`. The traits `ToRow` and `CanBeHeld` are here, since
//! types of the register implement them too, and an `impl` is in the crate of its trait or of its type.
//!
//! For example, the rows of a state with one demanded pair have one row in `standing`. Rows with another class there
//! belong to no state.
#![tactic(auto)]

pub mod held_register;
pub mod laws;
mod meta;
mod read;
pub mod row_change;
pub mod row_changes;
pub mod rows_of;
pub mod state_of;
