//! A network in memory, for tests of the program.
ghost use Rattle.std.specs.Prelude.{◌≡◌, [], Some, option_map};
ghost use Rattle.vetd_program.specs.MemoryNetwork.{ComesNext, IsClosed, IsReleased, ListensOnce, on_given_day};
ghost use Rattle.vetd_program.specs.Serving.{IsOnDay};

use crate::clients::arrival::Arrival;
use crate::clients::network::{HangUp, Network};
use std::alloc::Global;
use std::collections::VecDeque;
use std::io::Read;
use vet_base::day::Day;
use vet_http::serve::Connection;

/// A network that holds its clients. They come in their order at the first port at which somebody listens, and after
/// the last of them the listener is lost. Nobody can listen a second time. Once the listener is closed, the network has
/// the clients that it released.
#[derive(Drop)]
pub struct MemoryNetwork<R, W> {
    coming: Option<VecDeque<Arrival<R, W>>>,
    /// The clients that were released, in their order. `None` if there was no room for one of them.
    released: Option<Vec<Connection<R, W>>>,
}

/// The clients that are still to come, and those that were released.
#[derive(Drop)]
pub struct MemoryListener<R, W> {
    coming: VecDeque<Arrival<R, W>>,
    released: Option<Vec<Connection<R, W>>>,
}

impl<R: Drop, W: Drop> MemoryNetwork<R, W> {
    /// A network to which these clients come.
    pub fn new(alloc: Global, coming: VecDeque<Arrival<R, W>>) -> MemoryNetwork<R, W>
        ensures coming { result.coming ≡ Some coming }
        ensures released { option_map (λ clients. clients.items) result.released ≡ Some [] }
    {
        MemoryNetwork {
            coming: Some(coming),
            released: Some(Vec::new(alloc)),
        }
    }

    /// The clients that were released, in their order. `None` if there was no room for one of them.
    pub fn into_released(self) -> Option<Vec<Connection<R, W>>>
        ensures { result ≡ self.released }
    {
        self.released
    }
}

impl<R: Read + Drop, W: HangUp + Drop> Network for MemoryNetwork<R, W> {
    type Listener = MemoryListener<R, W>;

    type Reader = R;

    type Writer = W;

    ghost may_listen = { λ network _ listener network'. ListensOnce network listener network' };

    ghost may_come = { λ listener told arrival listener'. ComesNext listener.coming.items told arrival
        listener'.coming.items × (listener'.released ≡ listener.released) };

    ghost may_release = { λ listener client listener'. (listener'.coming ≡ listener.coming)
        × IsReleased (option_map (λ clients. clients.items) listener.released) client
        (option_map (λ clients. clients.items) listener'.released) };

    ghost may_close = { λ network listener network'. IsClosed network listener network' };

    fn listen(&mut self, _port: u16) -> Option<MemoryListener<R, W>> {
        match self.coming.take() {
            Some(coming) => Some(MemoryListener {
                coming,
                released: self.released.take(),
            }),
            None => None,
        }
    }

    fn accept(
        &self,
        _alloc: Global,
        listener: &mut MemoryListener<R, W>,
        day: Option<Day>,
    ) -> Arrival<R, W> {
        match listener.coming.pop_front() {
            Some(next) => on_day(next, day),
            None => Arrival::Lost,
        }
    }

    fn release(&self, listener: &mut MemoryListener<R, W>, client: Connection<R, W>)
        ensures { (listener.new.coming ≡ listener.old.coming)
            × IsReleased (option_map (λ clients. clients.items) listener.old.released) client
            (option_map (λ clients. clients.items) listener.new.released) }
    {
        if let Some(released) = listener.released.take() {
            listener.released = with_one_more(released, client);
        }
    }

    fn close(&mut self, listener: MemoryListener<R, W>) {
        self.released = listener.released;
    }
}

/// A client on the day, if one is given.
fn on_day<R, W>(arrival: Arrival<R, W>, day: Option<Day>) -> Arrival<R, W>
    ensures same { result ≡ on_given_day day arrival }
    ensures on_day { IsOnDay day result }
{
    match (day, arrival) {
        (Some(day), Arrival::Client(connection)) => {
            let mut connection = connection;
            connection.day = day;
            Arrival::Client(connection)
        }
        (_, arrival) => arrival,
    }
}

/// The clients and one more, if there is room for it.
fn with_one_more<T: Drop>(clients: Vec<T>, client: T) -> Option<Vec<T>>
    ensures { IsReleased (Some clients.items) client (option_map (λ clients. clients.items) result) }
{
    let mut clients = clients;
    match clients.push(client) {
        Ok(()) => Some(clients),
        Err(_) => None,
    }
}
