//! The serve command, which serves a register over HTTP.
ghost use Rattle.std.specs.Prelude.{◌≡◌, ◌≢◌, ◌≤◌, IfErr, IfOk, MatchResult, Ok, OnErr, OnOk, Some, false, map};
ghost use Rattle.std.specs.Io.KnownBytes.{Appends, Keeps};
ghost use Rattle.sqlite.specs.Held.{state};
ghost use Rattle.vet_register.specs.Sound.{IsBalanced};
ghost use Rattle.vet_register.specs.State.{start};
ghost use Rattle.vet_requests.specs.Output.{AppendsPart};
ghost use Rattle.vet_rows.specs.RowsOf.{rows_of};
ghost use Rattle.vet_store.specs.Beside.{OthersStay};
ghost use Rattle.vet_store.specs.Classes.{AddsUp, HasClassesOfChains};
ghost use Rattle.vet_store.specs.Runs.{IsOfStore};
ghost use Rattle.vet_store.specs.Tied.{IsTied};
ghost use Rattle.vetd_commands.specs.Making.{FoundBy};
ghost use Rattle.vetd_words.specs.Answer.{IsWritten, network_line};
ghost use Rattle.vetd_words.specs.ServeAsked.{AsksServe, ServeAsked, serve_asked};
ghost use Rattle.vetd_words.specs.Words.{AskForHelp, AskForNoHelp};
ghost use Rattle.vetd_program.specs.ServeRun.{Answered, AnswersServe, IsServeAt, IsServeInMemory, IsServeOn};
ghost use Rattle.vetd_program.specs.ServeRun.{IsServeOver, IsSittingOf, IsUnserved, IsUnservedAt, IsUnservedOver};
ghost use Rattle.vetd_program.specs.ServeRun.{day_told, on_day};
ghost use Rattle.vetd_program.specs.DoneTurns.{LeavesWhereShut};
ghost use Rattle.vetd_program.specs.Serving.{clients_of};

use crate::clients::network::Network;
use crate::clients::serving::serve_each;
use crate::serve_lines::ServeLines;
use sqlite::{Alter, Connection};
use std::alloc::Global;
use std::convert::AsStr;
use std::io::Write;
use vet_base::day::Day;
use vet_base::limits::MOST_MOVES;
use vet_base::refusal::Refusal;
use vet_graph::keeper::Keeper;
use vet_http::serve_room::ServeRoom;
use vet_requests::io_fault::IoFault;
use vet_requests::output::write_whole;
use vet_store::laws::classes_are_of_chains;
use vet_store::memory::file::{MemoryFiles, connect_in_memory};
use vet_store::store::Store;
use vetd_commands::databases::{DatabaseRun, Databases};
use vetd_words::answer::{PRINTED, REFUSED, explain, report};
use vetd_words::serve_words::{ServeWords, serve_words};

/// The line that is printed if the port is not available, or the listener is lost.
const NETWORK_LINE: &str = "fault: network\n";

/// The port at which clients connect, how many are awaited, and the day on which they are served, if one is given.
#[derive(Clone, Copy)]
pub struct Service {
    pub port: u16,
    pub connections: u32,
    pub day: Option<Day>,
}

/// Answers the words of a serve command, which come without the program's own name: serves the register in the database
/// at their path, or a new one in memory, to clients that connect to a port of the network. The line with the port goes
/// to `writer` once they may connect, and the line with how many had their whole reply at the end. Help and the version
/// go to `writer` too; a refusal, a lost network or clap's error goes to `errors`.
///
/// **The tables have the rows of the state that the last client left, and each client was a step of the machine, or
/// changed nothing.** Refusals that the user reads, the first that applies: `BadDay` if the text of the day is not a
/// day, before anything is opened or bound; `NotARegister` if there is no file at the path, if the tables have the rows
/// of no register, or if they are of the first version and a name that only the second has is taken, and `StoreRefused`
/// if no database can be opened or read there. Faults: `NoMemory` if nothing was printed and nobody was served, and
/// `Output` if a prefix of the answer was printed.
pub fn serve_run<
    T: AsStr,
    S: Alter + Drop,
    K: Keeper,
    D: Databases<S>,
    N: Network,
    W: Write,
    E: Write,
>(
    alloc: Global,
    words: &[T],
    network: &mut N,
    databases: &mut D,
    writer: &mut W,
    errors: &mut E,
) -> DatabaseRun<S>
    ensures written { IsWritten
        (AnswersServe S.Store (FoundBy (D.may_find databases.old))
        (clients_of N.may_listen N.may_come N.may_release N.may_close N.Reader.remaining N.Writer.Write.contents)
        network.old network.new
        (map T.text words.now) result.conn)
        ((network.new ≡ network.old)
        × IsUnserved S.Store (FoundBy (D.may_find databases.old)) (map T.text words.now) result.conn)
        result.status (W.contents writer.old) (W.contents writer.new)
        (E.contents errors.old) (E.contents errors.new) }
    ensures faults { IfErr result.status (λ fault. (fault ≢ IoFault.Input) × (fault ≢ IoFault.Endless)) }

    // Help and the version go to the output, and a fault of the words to the errors.
    ensures help { AskForHelp (map T.text words.now) → Keeps (E.contents errors.old) (E.contents errors.new) }
    ensures wrong { ((asked : ServeAsked) → AsksServe (map T.text words.now) asked → ⊥)
        → AskForNoHelp (map T.text words.now) → Keeps (W.contents writer.old) (W.contents writer.new) }
{
    match serve_words(alloc, words) {
        Ok(asked) => serve_on::<S, K, D, N, W, E>(alloc, asked, network, databases, writer, errors),
        Err(error) => DatabaseRun {
            status: explain(alloc, &error, writer, errors),
            conn: None,
        },
    }
}

/// Serves as the words ask, if the text of the day is a day.
fn serve_on<S: Alter + Drop, K: Keeper, D: Databases<S>, N: Network, W: Write, E: Write>(
    alloc: Global,
    asked: ServeWords<'_>,
    network: &mut N,
    databases: &mut D,
    writer: &mut W,
    errors: &mut E,
) -> DatabaseRun<S>
    ensures written { IsWritten (Answered (λ answer. IsServeOn S.Store (FoundBy (D.may_find databases.old))
        (clients_of N.may_listen N.may_come N.may_release N.may_close N.Reader.remaining N.Writer.Write.contents)
        network.old network.new
        (serve_asked asked.entry) (day_told (serve_asked asked.entry).day) answer result.conn))
        ((network.new ≡ network.old)
        × IsUnservedAt S.Store (FoundBy (D.may_find databases.old)) (serve_asked asked.entry).path result.conn)
        result.status (W.contents writer.old) (W.contents writer.new)
        (E.contents errors.old) (E.contents errors.new) }
    ensures faults { IfErr result.status (λ fault. (fault ≢ IoFault.Input) × (fault ≢ IoFault.Endless)) }
{
    let service = match service_of(asked) {
        Ok(service) => service,
        Err(refusal) => {
            return DatabaseRun {
                status: report(alloc, &Err(refusal), writer, errors),
                conn: None,
            };
        }
    };
    match asked.path {
        Some(path) => {
            serve_file::<S, K, D, N, W, E>(alloc, path, service, network, databases, writer, errors)
        }
        None => DatabaseRun {
            status: serve_memory::<K, N, W, E>(alloc, service, network, writer, errors),
            conn: None,
        },
    }
}

/// The service that is asked for, with its day parsed. Refused: `BadDay`.
fn service_of(asked: ServeWords<'_>) -> Result<Service, Refusal>
    ensures day { MatchResult result (λ service. day_told (serve_asked asked.entry).day ≡ Ok service.day)
        (λ e. day_told (serve_asked asked.entry).day ≡ Err e) }
    ensures same { IfOk result (λ service. service ≡ on_day (serve_asked asked.entry) service.day) }
{
    let day = match asked.day {
        Some(text) => Some(Day::parse(text)?),
        None => None,
    };
    Ok(Service {
        port: asked.port,
        connections: asked.connections,
        day,
    })
}

/// Serves the register in the database at a path.
fn serve_file<S: Alter + Drop, K: Keeper, D: Databases<S>, N: Network, W: Write, E: Write>(
    alloc: Global,
    path: &str,
    service: Service,
    network: &mut N,
    databases: &mut D,
    writer: &mut W,
    errors: &mut E,
) -> DatabaseRun<S>
    ensures written { IsWritten (Answered (λ answer. IsServeAt S.Store (FoundBy (D.may_find databases.old))
        (clients_of N.may_listen N.may_come N.may_release N.may_close N.Reader.remaining N.Writer.Write.contents)
        network.old network.new
        service path.now answer result.conn))
        ((network.new ≡ network.old)
        × IsUnservedAt S.Store (FoundBy (D.may_find databases.old)) (Some path.now) result.conn)
        result.status (W.contents writer.old) (W.contents writer.new)
        (E.contents errors.old) (E.contents errors.new) }
    ensures faults { IfErr result.status (λ fault. (fault ≢ IoFault.Input) × (fault ≢ IoFault.Endless)) }
{
    match databases.find(path) {
        Ok(conn) => {
            let (status, conn) = serve_opened::<S, K, N, W, E>(
                alloc, conn, service, network, writer, errors,
            );
            DatabaseRun {
                status,
                conn: Some(conn),
            }
        }
        Err(refusal) => DatabaseRun {
            status: report(alloc, &Err(refusal), writer, errors),
            conn: None,
        },
    }
}

/// Serves the register in the tables of a connection, and returns the connection.
fn serve_opened<S: Alter + Drop, K: Keeper, N: Network, W: Write, E: Write>(
    alloc: Global,
    conn: Connection<S>,
    service: Service,
    network: &mut N,
    writer: &mut W,
    errors: &mut E,
) -> (Result<u8, IoFault>, Connection<S>)
    requires outside { conn.in_transaction ≡ false }
    ensures written { IsWritten (Answered (λ answer. IsServeOver S.Store
        (clients_of N.may_listen N.may_come N.may_release N.may_close N.Reader.remaining N.Writer.Write.contents)
        network.old network.new
        service conn answer result.1))
        ((network.new ≡ network.old) × IsUnservedOver S.Store conn result.1)
        result.0 (W.contents writer.old) (W.contents writer.new)
        (E.contents errors.old) (E.contents errors.new) }
    ensures faults { IfErr result.0 (λ fault. (fault ≢ IoFault.Input) × (fault ≢ IoFault.Endless)) }
{
    match Store::<S, K>::open(alloc, conn) {
        Ok(store) => {
            let mut store = store;
            let status = serve_at_port(alloc, &mut store, service, network, writer, errors);
            (status, store.close())
        }
        Err(refused) => {
            let (refusal, conn) = refused.into_parts();
            (report(alloc, &Err(refusal), writer, errors), conn)
        }
    }
}

/// Serves a new register in memory, which may record 1,000,000 moves.
fn serve_memory<K: Keeper, N: Network, W: Write, E: Write>(
    alloc: Global,
    service: Service,
    network: &mut N,
    writer: &mut W,
    errors: &mut E,
) -> Result<u8, IoFault>
    ensures written { IsWritten (Answered (IsServeInMemory
        (clients_of N.may_listen N.may_come N.may_release N.may_close N.Reader.remaining N.Writer.Write.contents)
        network.old network.new service)) (network.new ≡ network.old)
        result (W.contents writer.old) (W.contents writer.new)
        (E.contents errors.old) (E.contents errors.new) }
    ensures faults { IfErr result (λ fault. (fault ≢ IoFault.Input) × (fault ≢ IoFault.Endless)) }
{
    match new_in_memory::<K>(alloc) {
        Ok(store) => {
            let mut store = store;
            serve_at_port(alloc, &mut store, service, network, writer, errors)
        }
        Err(refusal) => report(alloc, &Err(refusal), writer, errors),
    }
}

/// A new register in memory, which may record 1,000,000 moves. Refused: `NoMemory`, `StoreRefused`.
fn new_in_memory<K: Keeper>(alloc: Global) -> Result<Store<MemoryFiles, K>, Refusal>
    ensures start { IfOk result (λ store. store.register.state ≡ start MOST_MOVES) }
    ensures refused { IfErr result IsOfStore }
{
    let conn = connect_in_memory(alloc)?;
    match Store::create(alloc, conn, MOST_MOVES) {
        Ok(store) => Ok(store),
        Err(refused) => {
            let (refusal, _conn) = refused.into_parts();
            Err(refusal)
        }
    }
}

/// Serves an open register at a port, and then stops listening there.
fn serve_at_port<S: Alter + Drop, K: Keeper, N: Network, W: Write, E: Write>(
    alloc: Global,
    store: &mut Store<S, K>,
    service: Service,
    network: &mut N,
    writer: &mut W,
    errors: &mut E,
) -> Result<u8, IoFault>
    ensures written { IsWritten (Answered (IsSittingOf
        (clients_of N.may_listen N.may_come N.may_release N.may_close N.Reader.remaining N.Writer.Write.contents)
        network.old network.new service
        (LeavesWhereShut store.old.shut store.new.shut (state S.Store store.new.conn) store.new.register.state)
        store.old.register.state store.new.register.state))
        ((network.new ≡ network.old) × (store.new ≡ store.old)) result (W.contents writer.old) (W.contents writer.new)
        (E.contents errors.old) (E.contents errors.new) }
    ensures faults { IfErr result (λ fault. (fault ≢ IoFault.Input) × (fault ≢ IoFault.Endless)) }
    ensures tables { IsTied (state S.Store store.new.conn) store.new.shut (rows_of store.new.register.state) }
    ensures others { OthersStay (state S.Store store.old.conn) (state S.Store store.new.conn) }
{
    store.tables_are_of_register();
    headline_holds(store);
    let mut room = ServeRoom::new(alloc)?;
    let mut lines = ServeLines::of_port(alloc, service.port)?;
    let mut listener = match network.listen(service.port) {
        Some(listener) => listener,
        None => return tell_network(errors),
    };
    if let Err(fault) = write_whole(writer, lines.listening.as_bytes()) {
        network.close(listener);
        return Err(fault);
    }
    let summary = serve_each(alloc, &mut room, store, network, &mut listener, &service);
    network.close(listener);
    headline_holds(store);
    if summary.lost {
        return tell_network(errors);
    }
    write_whole(writer, lines.served(summary.served).as_bytes())?;
    Ok(PRINTED)
}

/// The classes of a store's register are those that chains of entries give the least demand, they add up to it, and
/// they are balanced with the moves. Does nothing.
fn headline_holds<S: Alter, K: Keeper>(store: &Store<S, K>)
    ensures classes { HasClassesOfChains store.now.register.state }
    ensures adds_up { AddsUp store.now.register.state }
    ensures balance { IsBalanced store.now.register.state }
{
    classes_are_of_chains(store.register());
}

/// Prints that the network is lost. Fails with `Output` if the write fails.
fn tell_network<E: Write>(errors: &mut E) -> Result<u8, IoFault>
    ensures status { IfOk result (λ status. status ≡ REFUSED) }
    ensures told { OnOk result (Appends (E.contents errors.old) (E.contents errors.new) network_line) }
    ensures part { OnErr result (AppendsPart (E.contents errors.old) (E.contents errors.new) network_line) }
    ensures faults { IfErr result (λ fault. fault ≡ IoFault.Output) }
{
    write_whole(errors, NETWORK_LINE.as_bytes())?;
    Ok(REFUSED)
}
