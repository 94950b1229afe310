//! Readers of the tables of a file. Each returns what its definition gives for a table.

pub(crate) mod criteria;
pub mod document;
pub(crate) mod entries;
pub(crate) mod exemptions;
pub(crate) mod gathered_policies;
pub(crate) mod named_tables;
pub(crate) mod package_entries;
pub mod package_tables;
pub(crate) mod peers;
pub(crate) mod policies;
pub(crate) mod publishers;
pub(crate) mod subject;
pub mod walk;
pub(crate) mod whose;
pub(crate) mod windows;
