//! The network from which clients come, and how their connections end.
ghost use Rattle.std.specs.Prelude.{◌≡◌, Option, ℕ};
ghost use Rattle.std.specs.Io.KnownBytes.{Keeps};
ghost use Rattle.vet_base.specs.Day.{DayValue};
ghost use Rattle.vet_http.specs.declared.serve.Connection.{Connection as ConnectionValue};
ghost use Rattle.vetd_program.specs.Serving.{IsOnDay};
ghost use Rattle.vetd_program.specs.declared.clients.arrival.Arrival.{Arrival as ArrivalValue};

use crate::clients::arrival::Arrival;
use std::alloc::Global;
use std::io::{Read, Write};
use vet_base::day::Day;
use vet_http::serve::Connection;

/// A writer to a client, which may still send.
pub trait HangUp: Write {
    /// Shuts the sending side, then reads and discards what the client has sent and nobody has read, so that the client
    /// gets its reply before it learns of a reset. With `awaited`, what the client has yet to send is read and
    /// discarded too. At most 32 MiB are read.
    fn hang_up(&mut self, awaited: bool)
        ensures kept { Keeps (Self.contents self.old) (Self.contents self.new) };
}

/// A network with ports to which clients connect.
pub trait Network {
    /// A listener at a port.
    type Listener: Drop;
    /// A reader of what a client sends.
    type Reader: Read + Drop;
    /// A writer to a client.
    type Writer: HangUp + Drop;

    /// The results that listening at a port may give: a listener, or none; and the network that is left.
    ghost may_listen: { Self → ℕ → Option Self.Listener → Self → Type 0 };

    /// The arrivals that may come to a listener, given the day on which clients are served, if there is one; and the
    /// listener that is left.
    ghost may_come: { Self.Listener → Option DayValue → ArrivalValue Self.Reader Self.Writer → Self.Listener → Type 0 };

    /// The listeners that may be left once a client that came to one is released.
    ghost may_release: { Self.Listener → ConnectionValue Self.Reader Self.Writer → Self.Listener → Type 0 };

    /// The networks that may be left once a listener is closed.
    ghost may_close: { Self → Self.Listener → Self → Type 0 };

    /// Listens at a port. `None` if the port is not available.
    fn listen(&mut self, port: u16) -> Option<Self::Listener>
        ensures { may_listen self.old port result self.new };

    /// Waits for a client. It is served on the day or, if none is given, on the day that the network says.
    fn accept(
        &self,
        alloc: Global,
        listener: &mut Self::Listener,
        day: Option<Day>,
    ) -> Arrival<Self::Reader, Self::Writer>
        ensures came { may_come listener.old day result listener.new }
        ensures on_day { IsOnDay day result };

    /// Takes back a client that came to the listener and was served. Its connection ends.
    fn release(&self, listener: &mut Self::Listener, client: Connection<Self::Reader, Self::Writer>)
        ensures { may_release listener.old client listener.new };

    /// Stops listening.
    fn close(&mut self, listener: Self::Listener)
        ensures { may_close self.old listener self.new };
}
