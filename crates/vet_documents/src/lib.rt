//! The documents in which commands are sent, and the three files of a register as texts.
//!
//! **A document gives exactly the command that its definition finds in its bytes, or its first fault in the order of
//! its keys. The text of a file is read back as what the register holds.**
//!
//! Scope of this crate: the words and keys of command documents, and the texts of a register's files, by their names.
//! The readers of `vet_files` and `vet_demand` say what entries and files within a document mean. `vet_http` reexports
//! the public names of this crate.
//!
//! For example, `command = "add-member"` and `member = "ann"` is the command that adds a member, and `command = 5` is
//! refused as 28 FieldRefused, which names `command command`.
#![tactic(auto)]

pub mod command_document;
mod command_word;
mod criterion_document;
mod desk_document;
mod document_field;
mod document_keys;
mod entry_document;
mod files_document;
mod names_at;
mod peer_document;
mod policy_document;
mod project_document;
mod publishers_document;
pub mod register_file;
