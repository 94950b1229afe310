//! Entries, the facts that hold them, and the steps of trust that they give a package.
//!
//! **`steps_of` returns exactly the list of steps of the definition, and `condemned` exactly the criteria of the
//! definition. `EntryFacts::apply` returns the edit that undoes the one that it makes.**
//!
//! Scope of this crate: which versions are vouched for, and for which criteria. `vet_graph` finds where chains of steps
//! lead, and `vet_demand` what projects ask for.
//!
//! For example, a wildcard entry of user 5 from 2023-01-01 to 2023-12-31 gives a step to each version that this user
//! published from the first of these days to the last, both included.
#![tactic(auto)]

mod by_package;
pub mod condemned;
pub mod criteria_map;
pub mod distinct;
mod edit;
pub mod entry;
pub mod facts;
mod held_entries;
pub mod held_peer;
pub mod holding;
pub mod import;
pub mod judge;
pub mod kind;
pub mod laws;
pub mod local_criteria;
mod order;
pub mod package_entries;
pub mod peer_content;
pub mod peer_settings;
mod peers;
pub mod publisher;
pub mod publisher_records;
pub mod publishers;
pub mod replaced;
mod said;
mod source;
pub mod step;
pub mod user;
