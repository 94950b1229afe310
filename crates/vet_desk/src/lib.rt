//! The review desk: the members of an organisation, and the reviews that they do.
//!
//! **One call judges a command and prepares its change, which includes everything that can fail. Another call makes
//! the change. The two are one step of the desk, and a finished review has the entry that the command makes.**
//!
//! Scope of this crate: members, and reviews from their opening to their end. Entries and their numbers are the
//! register's, and so is the limit of steps, which comes between the desk's limits. So each part of the verdict has a
//! call of its own.
//!
//! For example, a review can be opened only of demanded pairs (24 NotDemanded), and can be assigned only to a member
//! (19 UnknownMember).
#![tactic(auto)]

pub mod change;
pub mod command;
pub mod desk;
mod finished;
pub mod laws;
mod prepare;
pub mod review;
pub mod verdict;
