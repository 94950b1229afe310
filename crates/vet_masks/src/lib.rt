//! The criteria for which chains lead to each version of a package, found for all criteria at once.
//!
//! **A version is reached for a criterion exactly where a chain for it leads there. A search looks at each step once
//! for its index, and at most once more for each criterion that some step has.**
//!
//! This crate has the steps whose looks are counted (`looks`), the search that passes sets of criteria from version to
//! version (`search`), and the class of each version by a few searches that share an index (`classes`). `vet_graph`
//! says what chains are.
//!
//! For example, a full entry for 1.2.0 and a delta from 1.2.0 to 1.1.0, both for `safe-to-deploy`, reach both versions
//! for it and for `safe-to-run`. The search looks at each of the two steps twice: once for the index, and once more,
//! since both criteria pass along a step together.
#![tactic(auto)]

mod changes;
mod classes;
mod counts;
mod demanded;
mod exempt;
mod grown;
mod index;
pub mod keeper;
mod kept;
pub mod looks;
mod masks;
mod names;
mod packages;
mod reach;
mod rule;
pub mod search;
mod standing;
mod table;
