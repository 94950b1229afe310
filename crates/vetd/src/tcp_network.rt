//! Clients that connect to this machine over TCP.
ghost use Rattle.std.specs.Net.Addr.{ipv4_octets};
ghost use Rattle.std.specs.Prelude.{◌≡◌, ◌∷◌, [], IfOk, Option, ⊤};
ghost use Rattle.vet_base.specs.Day.{DayValue};
ghost use Rattle.vetd_program.specs.Serving.{IsOnDay};
ghost use Rattle.vetd_program.specs.declared.clients.arrival.Arrival.TheVariants.{Client};

use crate::deadline::{Deadline, today};
use crate::timed::{TimedReader, TimedWriter};
use std::alloc::Global;
use std::io;
use std::io::ErrorKind;
use std::net::{Ipv4Addr, Net, OpenListener, OpenStream, TcpListener};
use std::time::Clock;
use vet_base::day::Day;
use vet_http::serve::Connection;
use vet_requests::input::CountedReader;
use vetd_program::clients::arrival::Arrival;
use vetd_program::clients::network::Network;

/// The ports of the loopback interface, and the clock by which clients are served. Nothing is known about who connects.
#[derive(Drop)]
pub struct TcpNetwork<'a, H: Net + Clock> {
    host: &'a H,
}

impl<'a, H: Net + Clock> TcpNetwork<'a, H> {
    /// The network of a machine.
    pub fn new(host: &'a H) -> TcpNetwork<'a, H> {
        TcpNetwork { host }
    }

    /// A client's connection, whose time begins now. If no day is given, the client is served on the clock's day.
    fn connection(
        &self,
        alloc: Global,
        stream: H::Stream,
        day: Option<Day>,
    ) -> io::Result<Connection<TimedReader<'a, H, H::Stream>, TimedWriter<'a, H, H::Stream>>>
        ensures { IfOk result (λ connection. IsOnDay day (Client connection)) }
    {
        let deadline = Deadline::from_now(self.host)?;
        let day = match day {
            Some(day) => day,
            None => today(self.host)?,
        };
        let sending = stream.try_clone()?;
        Ok(Connection {
            day,
            reader: CountedReader::new(alloc, TimedReader::new(self.host, stream, deadline)),
            writer: TimedWriter::new(self.host, sending, deadline),
        })
    }
}

impl<'a, H: Net + Clock> Network for TcpNetwork<'a, H> {
    type Listener = H::Listener;

    type Reader = TimedReader<'a, H, H::Stream>;

    type Writer = TimedWriter<'a, H, H::Stream>;

    ghost may_listen = { λ _ _ _ _. ⊤ };

    ghost may_come = { λ _ _ _ _. ⊤ };

    ghost may_release = { λ _ _ _. ⊤ };

    ghost may_close = { λ _ _ _. ⊤ };

    fn listen(&mut self, port: u16) -> Option<Self::Listener> {
        TcpListener::bind(self.host, loopback(port)).ok()
    }

    fn accept(
        &self,
        alloc: Global,
        listener: &mut Self::Listener,
        day: Option<Day>,
    ) -> Arrival<Self::Reader, Self::Writer> {
        let (stream, _address) = match listener.accept() {
            Ok(accepted) => accepted,
            Err(error) => return failed(listener, error.kind()),
        };
        match self.connection(alloc, stream, day) {
            Ok(connection) => Arrival::Client(connection),
            Err(_) => Arrival::Failed,
        }
    }

    fn release(
        &self,
        _listener: &mut Self::Listener,
        _client: Connection<Self::Reader, Self::Writer>,
    )
        ensures { ⊤ }
    {}

    fn close(&mut self, _listener: Self::Listener) {}
}

/// The address at which only clients of this machine can connect: 127.0.0.1, and the port.
fn loopback(port: u16) -> (Ipv4Addr, u16)
    ensures address { ipv4_octets result.0 ≡ 127 ∷ 0 ∷ 0 ∷ 1 ∷ [] }
    ensures port { result.1 ≡ port }
{
    (Ipv4Addr::LOCALHOST, port)
}

/// What an accept that failed means: the listener is lost if it no longer listens or has no address, and otherwise the
/// client failed.
fn failed<L: OpenListener, R, W>(listener: &L, kind: ErrorKind) -> Arrival<R, W>
    ensures { (told : Option DayValue) → IsOnDay told result }
{
    if kind == ErrorKind::InvalidInput || listener.local_addr().is_err() {
        return Arrival::Lost;
    }
    Arrival::Failed
}
