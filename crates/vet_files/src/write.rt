//! Writers, which make the tables from which files are printed.

pub(crate) mod audits_table;
pub(crate) mod config_records;
pub(crate) mod config_table;
pub(crate) mod criteria_tables;
pub(crate) mod entry_tables;
pub(crate) mod imports_table;
pub(crate) mod lists_by_package;
pub(crate) mod members;
pub(crate) mod print;
pub(crate) mod publisher_tables;
pub(crate) mod put;
pub(crate) mod put_sets;
pub(crate) mod sections;
