//! Connections are served one after the other, as they come.
//!
//! **Each client with a reply is answered in the state that the one before it left: if it asks for a command that is
//! done, that is a step of the machine, and otherwise the state stays. No connection keeps the next from being served,
//! however it ends.**
ghost use Rattle.std.specs.Prelude.{◌≡◌, ◌≤◌, [], ◌∷◌, IfSome, IsTrue, List, is_none};
ghost use Rattle.std.specs.Io.KnownBytes.{Keeps};
ghost use Rattle.sqlite.specs.Held.{state};
ghost use Rattle.vet_rows.specs.RowsOf.{rows_of};
ghost use Rattle.vet_store.specs.Beside.{OthersStay};
ghost use Rattle.vet_store.specs.Tied.{IsTied};
ghost use Rattle.vetd_program.specs.DoneTurns.{LeavesWhereShut};
ghost use Rattle.vetd_program.specs.HangingUp.{awaits_rest};
ghost use Rattle.vetd_program.specs.Serving.{AreServed, IsServedClient, ServesEach, Turn, clients_of, is_lost, replied};
ghost use Rattle.vetd_program.specs.Serving.{whole};
ghost use Rattle.vetd_program.specs.declared.clients.arrival.Arrival.{Arrival as ArrivalValue};

use crate::clients::arrival::Arrival;
use crate::clients::network::{HangUp, Network};
use crate::serve_run::Service;
use sqlite::Alter;
use std::alloc::Global;
use vet_base::day::Day;
use vet_graph::keeper::Keeper;
use vet_http::serve::{Connection, Served, serve_in};
use vet_http::serve_room::ServeRoom;
use vet_requests::io_fault::IoFault;
use vet_requests::status::Status;
use vet_store::store::Store;

/// The result of serving: how many clients had their whole reply, and whether the listener was lost before the end.
#[derive(Clone, Copy)]
pub struct ServeSummary {
    pub served: u32,
    pub lost: bool,
}

/// Serves the clients that connect to a listener, one after the other as they come, however each connection ends, until
/// as many came as are awaited or the listener is lost. Each is released to the listener before the next is waited for.
pub fn serve_each<S: Alter, K: Keeper, N: Network>(
    alloc: Global,
    room: &mut ServeRoom,
    store: &mut Store<S, K>,
    network: &N,
    listener: &mut N::Listener,
    service: &Service,
) -> ServeSummary
    ensures served { (clients : AreServed
        (clients_of N.may_listen N.may_come N.may_release N.may_close N.Reader.remaining N.Writer.Write.contents)
        service.now.day service.now.connections store.old.register.state listener.old result.lost
        store.new.register.state listener.new)
        × ((result.served ≡ replied clients.turns) × LeavesWhereShut store.old.shut store.new.shut
        (state S.Store store.new.conn) store.new.register.state clients.turns) }
    ensures tables { IsTied (state S.Store store.new.conn) store.new.shut (rows_of store.new.register.state) }
    ensures closed { IsTrue store.old.shut → store.new ≡ store.old }
    ensures others { OthersStay (state S.Store store.old.conn) (state S.Store store.new.conn) }
{
    store.tables_are_of_register();
    let mut served = 0;
    'clients: for _place in 0..service.connections {
        match serve_next(alloc, room, store, network, listener, service.day) {
            Some(replied) => served += replied,
            None => return ServeSummary { served, lost: true },
        }
    }
    ServeSummary {
        served,
        lost: false,
    }
}

/// Serves the next arrival at a listener, if it is a client. Returns 1 if a client had its whole reply, `None` if the
/// listener is lost, and otherwise 0.
fn serve_next<S: Alter, K: Keeper, N: Network>(
    alloc: Global,
    room: &mut ServeRoom,
    store: &mut Store<S, K>,
    network: &N,
    listener: &mut N::Listener,
    day: Option<Day>,
) -> Option<u32>
    ensures served { (arrival : ArrivalValue N.Reader N.Writer) × ((turns : List Turn) × (ServesEach
        (clients_of N.may_listen N.may_come N.may_release N.may_close N.Reader.remaining N.Writer.Write.contents) day
        store.old.register.state listener.old (arrival ∷ []) turns store.new.register.state listener.new
        × ((is_none result ≡ is_lost (arrival ∷ [])) × (IfSome result (λ whole. whole ≡ replied turns)
        × LeavesWhereShut store.old.shut store.new.shut (state S.Store store.new.conn) store.new.register.state
        turns)))) }
    ensures few { IfSome result (λ replied. replied ≤ 1) }
    ensures tables { IsTied (state S.Store store.new.conn) store.new.shut (rows_of store.new.register.state) }
    ensures closed { IsTrue store.old.shut → store.new ≡ store.old }
    ensures others { OthersStay (state S.Store store.old.conn) (state S.Store store.new.conn) }
{
    store.tables_are_of_register();
    match network.accept(alloc, listener, day) {
        Arrival::Client(client) => Some(serve_client(
            alloc, room, store, network, listener, client,
        )),
        Arrival::Failed => Some(0),
        Arrival::Lost => None,
    }
}

/// Serves a client, and releases it to the listener. Returns 1 if it had its whole reply, otherwise 0.
fn serve_client<S: Alter, K: Keeper, N: Network>(
    alloc: Global,
    room: &mut ServeRoom,
    store: &mut Store<S, K>,
    network: &N,
    listener: &mut N::Listener,
    client: Connection<N::Reader, N::Writer>,
) -> u32
    ensures served { (turn : Turn) × (IsServedClient
        (clients_of N.may_listen N.may_come N.may_release N.may_close N.Reader.remaining N.Writer.Write.contents)
        store.old.register.state listener.old client turn store.new.register.state listener.new
        × ((result ≡ replied (turn ∷ [])) × LeavesWhereShut store.old.shut store.new.shut
        (state S.Store store.new.conn) store.new.register.state (turn ∷ []))) }
    ensures few { result ≤ 1 }
    ensures tables { IsTied (state S.Store store.new.conn) store.new.shut (rows_of store.new.register.state) }
    ensures closed { IsTrue store.old.shut → store.new ≡ store.old }
    ensures others { OthersStay (state S.Store store.old.conn) (state S.Store store.new.conn) }
{
    let mut client = client;
    let day = client.day;
    let served = serve_in(
        alloc,
        room,
        store,
        day,
        &mut client.reader,
        &mut client.writer,
    );
    let replied = end_reply(&mut client.writer, &served);
    network.release(listener, client);
    replied
}

/// Hangs up if a client had its whole reply, and returns 1. After a fault nothing more is written or read, and 0 is
/// returned.
fn end_reply<W: HangUp>(writer: &mut W, served: &Result<Served, IoFault>) -> u32
    ensures count { result ≡ whole (served.now ∷ []) }
    ensures few { result ≤ 1 }
    ensures kept { Keeps (W.Write.contents writer.old) (W.Write.contents writer.new) }
{
    match served {
        Ok(served) => {
            writer.hang_up(may_await(served.status));
            1
        }
        Err(_) => 0,
    }
}

/// Whether a reply of this status may come before the client has sent everything that it announced.
fn may_await(status: Status) -> bool
    ensures { result ≡ awaits_rest status }
{
    match status {
        Status::BadRequest | Status::ContentTooLarge | Status::NotImplemented => true,
        _ => false,
    }
}
