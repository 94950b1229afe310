//! The demand of projects.
//!
//! **A demand holds exactly the pairs that it was given, or that projects demand by their policies, each once, in the
//! order of reports. Projects demand the least that the rules require.**
//!
//! Scope of this crate: pairs and demands, policies with their keys, projects, and the reader and the writer of
//! dependency tables.
//!
//! For example, a root `app` with a normal edge to a third-party `serde 1.0.0` demands that version for
//! `safe-to-deploy` and for `safe-to-run`, and with a dev edge only for `safe-to-run`.
#![tactic(auto)]

mod audited;
pub mod demand;
pub mod demand_of;
pub mod dependency_criteria;
mod dependency_record;
mod dependency_table;
mod flow;
pub mod laws;
pub mod pair;
mod passed;
pub mod place_lists;
mod placing;
pub mod policies;
pub mod policy;
pub mod policy_key;
pub mod policy_names;
pub mod project;
mod spread;
pub mod table_reader;
pub mod table_writer;
mod terms;
