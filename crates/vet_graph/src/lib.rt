//! Chains of steps, and the class that they give a version.
//!
//! **The class of a version for a criterion is the first of five that applies by its chains, and no other class is.**
//!
//! Scope of this crate: chains of steps, the standing of demanded pairs, the moves from one standing to another, and
//! the keepers of standings. `vet_entries` defines the steps that entries give, and `vet_demand` the demanded pairs.
//!
//! For example, a full entry for 1.2.0 and a delta from 1.2.0 to 1.1.0 make 1.1.0 Full. A violation of 1.2.0 makes
//! 1.2.0 Conflicting, and 1.1.0 Unvetted.
#![tactic(auto)]

pub mod class;
mod guarded;
pub mod keeper;
pub mod laws;
mod leading;
mod links;
pub mod moves;
mod package_steps;
pub mod pair_class;
pub mod plain;
mod search;
pub mod skip;
pub mod standing;
pub mod touched;
