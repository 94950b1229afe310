//! Serving requests: each is read, answered and replied to.
//!
//! **Each connection that is replied to is a step of the machine: the reply and the state after it are those of the
//! definition for the bytes that were read. Any fault other than a failed write changes and writes nothing.**
//!
//! So an answer is complete before its first byte is written. A write that fails leaves only a prefix of it.
ghost use Rattle.std.specs.Prelude.{◌≡◌, ◌≢◌, ◌+◌, false, IfErr, IfOk, IsTrue, OnErr, OnOk};
ghost use Rattle.std.specs.Io.KnownBytes.{Appends};
ghost use Rattle.sqlite.specs.Held.{state};
ghost use Rattle.sqlite.specs.State.{HasCleanDisk};
ghost use Rattle.vet_base.specs.declared.limits.TheConstants.{MOST_INPUT_BYTES, MOST_READS};
ghost use Rattle.vet_http.specs.DoneRequests.{IsOfDone, LeavesAmong};
ghost use Rattle.vet_requests.specs.Input.{TakesAtMost, heard};
ghost use Rattle.vet_requests.specs.Output.{AppendsPart};
ghost use Rattle.vet_http.specs.Serve.{Each, IsCutOffBy, IsCutOffTold, IsRefusedBy, IsRefusedTold, IsReplyToTold};
ghost use Rattle.vet_http.specs.Serve.{IsServed, IsServedBy, IsServedWithRepeats, IsTurn, IsTurnOfShut};
ghost use Rattle.vet_http.specs.Serve.{IsTurnWithRepeats, RepeatsStayTold};
ghost use Rattle.vet_http.specs.ServeBytes.{IsTurnOfBytes};
ghost use Rattle.vet_requests.specs.declared.request_limits.TheConstants.{MOST_HEAD_BYTES};
ghost use Rattle.vet_register.specs.Sound.{IsBalanced};
ghost use Rattle.vet_rows.specs.RowsOf.{rows_of};
ghost use Rattle.vet_store.specs.Beside.{OthersStay};
ghost use Rattle.vet_store.specs.Classes.{AddsUp, HasClassesOfChains};
ghost use Rattle.vet_store.specs.Tied.{IsTied};

use crate::answer::answer_by;
use crate::serve_room::ServeRoom;
use sqlite::Alter;
use std::alloc::Global;
use std::io::{Read, Write};
use vet_base::day::Day;
use vet_base::refusal::Refusal;
use vet_graph::keeper::Keeper;
use vet_requests::input::CountedReader;
use vet_requests::io_fault::IoFault;
use vet_requests::output::write_whole;
use vet_requests::reply::Reply;
use vet_requests::request::{Request, read_request_in};
use vet_requests::request_fault::RequestFault;
use vet_requests::route::Routes;
use vet_requests::status::Status;
use vet_store::laws::classes_are_of_chains;
use vet_store::store::Store;

/// The status of the reply that was written to a connection.
#[derive(Clone, Copy)]
pub struct Served {
    pub status: Status,
}

/// A connection, and the day on which it is served.
#[derive(Drop)]
pub struct Connection<R, W> {
    pub day: Day,
    pub reader: CountedReader<R>,
    pub writer: W,
}

/// Reads one request and writes its reply. Refused, with nothing changed or written: `Input`, `Endless` and `NoMemory`.
/// Refused, with only a prefix of the reply written: `Output`; the state is then the one after the reply.
pub fn serve_one<S: Alter, K: Keeper, R: Read, W: Write>(
    alloc: Global,
    store: &mut Store<S, K>,
    day: Day,
    reader: &mut CountedReader<R>,
    writer: &mut W,
) -> Result<Served, IoFault>
    ensures served { IsServed day (heard R.remaining reader.old) (heard R.remaining reader.new)
        (W.contents writer.old) (W.contents writer.new) store.old.register.state result store.new.register.state }
    ensures repeats { IsServedWithRepeats day (heard R.remaining reader.old) (heard R.remaining reader.new)
        (W.contents writer.old) (W.contents writer.new) store.old.register.state result store.new.register.state }
    ensures unchanged { IfErr result (λ fault. fault ≢ IoFault.Output → store.new ≡ store.old) }
    ensures tables { IsTied (state S.Store store.new.conn) store.new.shut (rows_of store.new.register.state) }
    ensures closed { IsTrue store.old.shut → store.new ≡ store.old }
    ensures others { OthersStay (state S.Store store.old.conn) (state S.Store store.new.conn) }
    ensures refuses { IsTrue store.old.shut → IsServedBy (IsRefusedBy day)
        (store.new.register.state ≡ store.old.register.state) (heard R.remaining reader.old)
        (heard R.remaining reader.new) (W.contents writer.old) (W.contents writer.new) result }
    ensures shuts { store.old.shut ≡ false → IsTrue store.new.shut
        → IsServedBy (IsCutOffBy day store.new.register.state (state S.Store store.new.conn)) ⊥
        (heard R.remaining reader.old) (heard R.remaining reader.new) (W.contents writer.old) (W.contents writer.new)
        result }
    ensures bounded { TakesAtMost (MOST_HEAD_BYTES + 1 + MOST_INPUT_BYTES)
        (heard R.remaining reader.old) (heard R.remaining reader.new) }
    ensures endless { result ≡ Err IoFault.Endless → reader.new.made ≡ MOST_READS }
{
    store.tables_are_of_register();
    let mut room = ServeRoom::new(alloc)?;
    serve_in(alloc, &mut room, store, day, reader, writer)
}

/// Reads one request and writes its reply as `serve_one` does, in room that is made once for many requests.
pub fn serve_in<S: Alter, K: Keeper, R: Read, W: Write>(
    alloc: Global,
    room: &mut ServeRoom,
    store: &mut Store<S, K>,
    day: Day,
    reader: &mut CountedReader<R>,
    writer: &mut W,
) -> Result<Served, IoFault>
    ensures served { IsServed day (heard R.remaining reader.old) (heard R.remaining reader.new)
        (W.contents writer.old) (W.contents writer.new) store.old.register.state result store.new.register.state }
    ensures repeats { IsServedWithRepeats day (heard R.remaining reader.old) (heard R.remaining reader.new)
        (W.contents writer.old) (W.contents writer.new) store.old.register.state result store.new.register.state }
    ensures unchanged { IfErr result (λ fault. fault ≢ IoFault.Output → store.new ≡ store.old) }
    ensures tables { IsTied (state S.Store store.new.conn) store.new.shut (rows_of store.new.register.state) }
    ensures closed { IsTrue store.old.shut → store.new ≡ store.old }
    ensures others { OthersStay (state S.Store store.old.conn) (state S.Store store.new.conn) }
    ensures refuses { IsTrue store.old.shut → IsServedBy (IsRefusedBy day)
        (store.new.register.state ≡ store.old.register.state) (heard R.remaining reader.old)
        (heard R.remaining reader.new) (W.contents writer.old) (W.contents writer.new) result }
    ensures shuts { store.old.shut ≡ false → IsTrue store.new.shut
        → IsServedBy (IsCutOffBy day store.new.register.state (state S.Store store.new.conn)) ⊥
        (heard R.remaining reader.old) (heard R.remaining reader.new) (W.contents writer.old) (W.contents writer.new)
        result }
    ensures bounded { TakesAtMost (MOST_HEAD_BYTES + 1 + MOST_INPUT_BYTES)
        (heard R.remaining reader.old) (heard R.remaining reader.new) }
    ensures endless { result ≡ Err IoFault.Endless → reader.new.made ≡ MOST_READS }
{
    store.tables_are_of_register();
    match read_request_in(alloc, reader, &mut room.fields) {
        Ok(told) => match reply_to(alloc, &room.routes, store, day, told) {
            Ok(reply) => write_reply(writer, &reply),
            Err(fault) => Err(fault),
        },
        Err(fault) => Err(fault),
    }
}

/// Writes a reply. Refused: `Output`, with only a prefix of it written.
fn write_reply<W: Write>(writer: &mut W, reply: &Reply) -> Result<Served, IoFault>
    ensures status { IfOk result (λ served. served.status ≡ reply.now.status) }
    ensures whole { OnOk result (Appends (W.contents writer.old) (W.contents writer.new) reply.now.bytes) }
    ensures part { OnErr result (AppendsPart (W.contents writer.old) (W.contents writer.new) reply.now.bytes) }
    ensures faults { IfErr result (λ fault. fault ≡ IoFault.Output) }
{
    write_whole(writer, reply.bytes.as_slice())?;
    Ok(Served {
        status: reply.status,
    })
}

/// The reply to the request of a connection, or to its fault. Refused, with nothing changed: `NoMemory`.
fn reply_to<S: Alter, K: Keeper>(
    alloc: Global,
    routes: &Routes,
    store: &mut Store<S, K>,
    day: Day,
    told: Result<Request, RequestFault>,
) -> Result<Reply, IoFault>
    ensures reply { IfOk result (λ reply.
        IsReplyToTold day told store.old.register.state reply store.new.register.state) }
    ensures repeats { IfOk result (λ reply.
        RepeatsStayTold day told store.old.register.state reply store.new.register.state) }
    ensures memory { IfErr result (λ fault. fault ≡ IoFault.NoMemory) }
    ensures err { OnErr result (store.new ≡ store.old) }
    ensures tables { IsTied (state S.Store store.new.conn) store.new.shut (rows_of store.new.register.state) }
    ensures closed { IsTrue store.old.shut → store.new ≡ store.old }
    ensures others { OthersStay (state S.Store store.old.conn) (state S.Store store.new.conn) }
    ensures refuses { IsTrue store.old.shut → IfOk result (λ reply. IsRefusedTold day told reply) }
    ensures shuts { store.old.shut ≡ false → IsTrue store.new.shut → IfOk result (λ reply.
        IsCutOffTold day store.new.register.state (state S.Store store.new.conn) told reply) }
{
    store.tables_are_of_register();
    match told {
        Ok(request) => match answer_by(alloc, routes, store, day, &request) {
            Ok(reply) => Ok(reply),
            Err(_) => Err(IoFault::NoMemory),
        },
        Err(fault) => Ok(Reply::plain(alloc, fault.status())?),
    }
}

/// Serves connections one after the other, even if some of them end in a fault. Room for their results is reserved
/// first. Refused, with none served: `NoMemory`.
pub fn serve_all<S: Alter, K: Keeper, R: Read, W: Write>(
    alloc: Global,
    store: &mut Store<S, K>,
    connections: &mut [Connection<R, W>],
) -> Result<Vec<Result<Served, IoFault>>, Refusal>
    ensures turns { IfOk result (λ answers. Each (IsTurn R.remaining W.contents) store.old.register.state
        connections.old connections.new answers.items store.new.register.state) }
    ensures kept { IfOk result (λ answers.
        IsOfDone R.remaining store.old.register.state connections.old connections.new store.new.register.state) }
    ensures classes { HasClassesOfChains store.new.register.state }
    ensures adds_up { AddsUp store.new.register.state }
    ensures balance { IsBalanced store.new.register.state }
    ensures repeats { IfOk result (λ answers. Each (IsTurnWithRepeats R.remaining W.contents) store.old.register.state
        connections.old connections.new answers.items store.new.register.state) }
    ensures memory { IfErr result (λ e. e ≡ Refusal.NoMemory) }
    ensures err { OnErr result ((store.new ≡ store.old) × (connections.new ≡ connections.old)) }
    ensures tables { IsTied (state S.Store store.new.conn) store.new.shut (rows_of store.new.register.state) }
    ensures closed { IsTrue store.old.shut → store.new ≡ store.old }
    ensures others { OthersStay (state S.Store store.old.conn) (state S.Store store.new.conn) }
    ensures refuses { IsTrue store.old.shut → IfOk result (λ answers.
        Each (IsTurnOfShut R.remaining W.contents) store.old.register.state
        connections.old connections.new answers.items store.new.register.state) }
    ensures leaves { store.old.shut ≡ false → IsTrue store.new.shut → HasCleanDisk (state S.Store store.new.conn)
        → LeavesAmong R.remaining connections.old connections.new store.new.register.state
        (state S.Store store.new.conn) }
{
    let answers = serve_each(alloc, store, connections);
    classes_are_of_chains(store.register());
    answers
}

/// Serves connections whose bytes are in memory. Nothing is assumed about reads and writes: a slice shows what is left
/// of it, and a vector what was written. A fault other than `Output` changes and writes nothing. With `Output`, if
/// memory ran out for a vector, only a prefix of the reply is written. Refused, with none served: `NoMemory`.
pub fn serve_slices<S: Alter, K: Keeper>(
    alloc: Global,
    store: &mut Store<S, K>,
    connections: &mut [Connection<&[u8], Vec<u8>>],
) -> Result<Vec<Result<Served, IoFault>>, Refusal>
    ensures turns { IfOk result (λ answers. Each (IsTurnOfBytes (λ r. r.now) (λ w. w.items)) store.old.register.state
        connections.old connections.new answers.items store.new.register.state) }
    ensures kept { IfOk result (λ answers. IsOfDone (λ r. Some r.now) store.old.register.state
        connections.old connections.new store.new.register.state) }
    ensures classes { HasClassesOfChains store.new.register.state }
    ensures adds_up { AddsUp store.new.register.state }
    ensures balance { IsBalanced store.new.register.state }
    ensures repeats { IfOk result (λ answers. Each (IsTurnWithRepeats (λ r. Some r.now) (λ w. Some w.items))
        store.old.register.state connections.old connections.new answers.items store.new.register.state) }
    ensures memory { IfErr result (λ e. e ≡ Refusal.NoMemory) }
    ensures err { OnErr result ((store.new ≡ store.old) × (connections.new ≡ connections.old)) }
    ensures tables { IsTied (state S.Store store.new.conn) store.new.shut (rows_of store.new.register.state) }
    ensures closed { IsTrue store.old.shut → store.new ≡ store.old }
    ensures others { OthersStay (state S.Store store.old.conn) (state S.Store store.new.conn) }
    ensures refuses { IsTrue store.old.shut → IfOk result (λ answers.
        Each (IsTurnOfShut (λ r. Some r.now) (λ w. Some w.items)) store.old.register.state
        connections.old connections.new answers.items store.new.register.state) }
    ensures leaves { store.old.shut ≡ false → IsTrue store.new.shut → HasCleanDisk (state S.Store store.new.conn)
        → LeavesAmong (λ r. Some r.now) connections.old connections.new store.new.register.state
        (state S.Store store.new.conn) }
{
    serve_all(alloc, store, connections)
}

/// Serves the connections as `serve_all` does, with fewer clauses.
fn serve_each<S: Alter, K: Keeper, R: Read, W: Write>(
    alloc: Global,
    store: &mut Store<S, K>,
    connections: &mut [Connection<R, W>],
) -> Result<Vec<Result<Served, IoFault>>, Refusal>
    ensures turns { IfOk result (λ answers. Each (IsTurnWithRepeats R.remaining W.contents) store.old.register.state
        connections.old connections.new answers.items store.new.register.state) }
    ensures memory { IfErr result (λ e. e ≡ Refusal.NoMemory) }
    ensures err { OnErr result ((store.new ≡ store.old) × (connections.new ≡ connections.old)) }
    ensures tables { IsTied (state S.Store store.new.conn) store.new.shut (rows_of store.new.register.state) }
    ensures closed { IsTrue store.old.shut → store.new ≡ store.old }
    ensures others { OthersStay (state S.Store store.old.conn) (state S.Store store.new.conn) }
    ensures refuses { IsTrue store.old.shut → IfOk result (λ answers.
        Each (IsTurnOfShut R.remaining W.contents) store.old.register.state
        connections.old connections.new answers.items store.new.register.state) }
    ensures leaves { store.old.shut ≡ false → IsTrue store.new.shut → HasCleanDisk (state S.Store store.new.conn)
        → LeavesAmong R.remaining connections.old connections.new store.new.register.state
        (state S.Store store.new.conn) }
{
    store.tables_are_of_register();
    let mut room = ServeRoom::new(alloc)?;
    let mut answers = Vec::new(alloc);
    answers.reserve(connections.len())?;
    'connections: for connection in connections.iter_mut() {
        let day = connection.day;
        let answer = serve_in(
            alloc,
            &mut room,
            store,
            day,
            &mut connection.reader,
            &mut connection.writer,
        );
        answers.push_reserved(answer);
    }
    Ok(answers)
}
