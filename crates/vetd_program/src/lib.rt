//! The program: it picks the command that the words of its command line name, answers it, and serves clients.
//!
//! **The output and the status depend only on the words and the input; with `--db` on the database too, and with
//! `serve` on the clients that come. A run that ends with a fault wrote nothing or, if a write failed, a prefix of the
//! answer.**
//!
//! Scope of this crate: the program, over any databases and any network. `main`, the files of this machine and its
//! network belong to `vetd`. `vetd_words` parses the words, and `vetd_commands` has the commands on a database.
//!
//! For example, the words `serve --port 8080 --connections 1` print `listening on 127.0.0.1:8080`, and `served 1` once
//! a client has its whole reply.
#![tactic(auto)]

pub mod clients;
pub mod program;
mod serve_lines;
pub mod serve_run;
