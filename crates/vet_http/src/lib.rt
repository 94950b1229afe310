//! Requests over HTTP, the replies to them, and connections served over a store.
//!
//! **The reply to a request, and the register after it, are those of the definition. The request of a connection is the
//! one with which its bytes begin, or its first fault.**
//!
//! Scope of this crate: what a request gives or asks for, the replies, and one connection after the other. The bytes of
//! requests and replies are those of `vet_requests`, command documents those of `vet_documents`, and this crate
//! reexports the names of both. Sockets and their deadlines are the program's.
//!
//! For example, `POST /commands` with `command = "add-member"` and `member = "ann"` is answered with 200 and `done 1
//! moves 0`, and with 200 and `already` when it comes again.
#![tactic(auto)]

pub mod answer;
mod given;
pub mod serve;
pub mod serve_room;
mod shown;
pub mod told;

pub use vet_documents::{command_document, register_file};
pub use vet_requests::{
    content_type, input, io_fault, output, parameter, reply, request, request_fault, request_laws,
    request_limits, route, route_laws, status,
};
