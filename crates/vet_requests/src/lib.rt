//! Requests over HTTP and their replies as bytes, and how bytes are read and written.
//!
//! **A connection gives exactly the request that its bytes begin with, or its first fault. A target has the route that
//! the table gives it, and a method asks for what the row of the route says. The bytes of a reply are those of its
//! definition.**
//!
//! Scope of this crate: heads, fields and bodies of requests, their parameters, routes, statuses, replies, counted
//! reads and whole writes. It knows no register: `vet_http` says what is answered from one, and reexports all names of
//! this crate.
//!
//! For example, a body that is one byte shorter than its `Content-Length` is answered with 400 `bad request`.
#![tactic(auto)]

pub mod content_type;
pub mod field_room;
mod fields;
mod head;
pub mod input;
pub mod io_fault;
pub mod output;
pub mod parameter;
pub mod reply;
pub mod request;
pub mod request_fault;
pub mod request_laws;
pub mod request_limits;
pub mod route;
pub mod route_laws;
pub mod status;
