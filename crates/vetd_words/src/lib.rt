//! The command line of `vetd`: how its words are parsed, the line about one file, and how an answer is printed.
//!
//! **Words are a command exactly if clap takes them as that, and they ask for what their definition says. The output
//! and the status of `vetd class` and `vetd read` depend only on the words and the input. A run that ends with a fault
//! wrote nothing or, if a write failed, a prefix of that answer.**
//!
//! Scope of this crate: the words of every command with their help, the line of a class, the counts of a file, and the
//! texts of a register that commands print. Registers in database files, and clients, belong to the crates above.
//!
//! For example, `vetd class serde 1.0.0 safe-to-deploy` prints `full` if standard input has a full entry of that
//! version for `safe-to-deploy`.
#![tactic(auto)]

pub mod answer;
pub mod apply_words;
pub mod asked;
pub mod class_line;
pub mod counts;
mod file_word;
pub mod help;
pub mod new_words;
pub mod read_line;
pub mod run;
pub mod serve_words;
mod surplus;
pub mod view;
pub mod view_words;
pub mod words;
