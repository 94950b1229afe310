//! The values of the register: names, versions, requirements, deltas, days, texts and criteria, the limits
//! that they keep, and the refusals that every call returns.
//!
//! **A parser accepts exactly the texts of its definition. A name, version, requirement or day that `Display` prints
//! is read back as the same value. The closure of some criteria is the least set that contains them and everything
//! that they imply.**
//!
//! Scope of this crate: only values. The crates above define entries, projects and classes.
//!
//! For example, `1.0.0---> 1.1.0` is a delta from `1.0.0--` to `1.1.0`, and `1.0.0--> 1.1.0` is refused as 5 BadDelta.
//! The closure of `safe-to-deploy` is that and `safe-to-run`.
#![tactic(auto)]

pub mod closures;
pub mod criteria_set;
pub mod criteria_table;
pub mod criterion;
pub mod day;
pub mod defined;
pub mod definitions;
pub mod delta;
pub mod document;
pub mod exact;
pub mod further_criteria;
pub mod key_text;
pub mod keyed;
pub mod limits;
pub mod name;
pub mod names;
pub mod package_names;
pub mod ranked;
pub mod refusal;
pub mod req;
mod short_text;
pub mod text;
pub mod texts;
pub mod version;
