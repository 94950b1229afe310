//! Arrivals at a listener.

use vet_http::serve::Connection;

/// The result of waiting for a client.
#[derive(Drop)]
pub enum Arrival<R, W> {
    /// A client connected.
    Client(Connection<R, W>),
    /// No client connected that can be served: one went away, there was no room for it, or the clock couldn't be read.
    Failed,
    /// No client will connect any more: the listener is lost.
    Lost,
}
