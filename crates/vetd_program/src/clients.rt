//! Clients, which come from a network and are served one after the other.

pub mod arrival;
pub mod memory_network;
pub mod network;
pub mod serving;
