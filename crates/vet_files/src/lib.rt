//! The three files of cargo-vet: `audits.toml`, `config.toml` and `imports.lock`.
//!
//! **A reader returns exactly the content that its definition gives for the file's table, with counts of what it
//! ignored, or the first fault of the walk. It returns `TomlRefused` only if `toml` refuses the bytes. A writer returns
//! a text that `toml` reads as the table of the content. If a reader can give the content, the text is read back as the
//! same content, with nothing ignored.**
//!
//! Scope of this crate: reading bytes as values, joining the values of three files in one, and writing values as texts.
//! The crates above decide which of the values are held, and which criteria they may name.
//!
//! For example, a delta in `audits.toml` with an unknown key `aggregated-from` is read, and the key is counted. A delta
//! whose `criteria` is a number is refused as a fault of that field (28).
#![tactic(auto)]

pub mod audits_file;
pub mod config_file;
pub mod field;
pub mod files_content;
pub mod found;
pub mod imports_file;
pub mod keys;
pub mod listed;
pub mod notices;
pub mod read;
mod write;
