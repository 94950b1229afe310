//! From rows back to values: the row of a value is read as that value. Other rows give `NotARegister` or some value,
//! and no clause says which.
pub(crate) mod cells;
pub mod columns;
mod criteria;
mod days;
pub(crate) mod desk;
mod entries;
pub mod facts;
pub mod from_row;
pub(crate) mod gathered;
mod held_peers;
mod kinds;
pub mod lists;
pub(crate) mod maps;
mod peers;
pub(crate) mod policies;
pub mod projects;
mod publishers;
pub mod read_error;
mod records;
pub(crate) mod sourced;
mod tables;
