//! The texts that are printed of a register.
//!
//! **Each report is a function of the register's state, byte for byte, and the line of an outcome a function of the
//! outcome.**
//!
//! Scope of this crate: only the texts. The crates above decide where they go, and how they are asked for. Definitions
//! are in `specs/`, made from columns: `left_in` and `right_in` align one in a width, and `line` joins them.
//!
//! For example, the outcome of the first command, if it adds an entry and moves two pairs, is the line
//! `done 1 number 1 moves 2`.
#![tactic(auto)]

mod columns;
pub mod counts_text;
pub mod desk_text;
pub mod lapses_text;
pub mod moves_text;
pub mod outcome_text;
pub mod refusal_text;
pub mod report;
pub mod standing_csv;
pub mod standing_text;
