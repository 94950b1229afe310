//! The reply to a request: its route, its method, and the route's own answer.
//!
//! **The reply and the state after it are those of the definition. A command that is done is kept with its rows, and
//! nothing needs memory after that.**
ghost use Rattle.std.specs.Prelude.{◌≡◌, ◌⊎◌, false, IfErr, IfOk, IsTrue, OnErr};
ghost use Rattle.sqlite.specs.Held.{state};
ghost use Rattle.sqlite.specs.State.{HasCleanDisk};
ghost use Rattle.vet_http.specs.Answer.{IsByMethod, IsByRoute, IsReplyTo, IsRun};
ghost use Rattle.vet_http.specs.Answered.{Tells, reply_of};
ghost use Rattle.vet_http.specs.AskedFor.{asked_for, given_at, given_by, given_in};
ghost use Rattle.vet_http.specs.ShutStore.{IsCutOff, IsRefused, IsToldCutOff, IsToldRefused};
ghost use Rattle.vet_http.specs.Given.{given_told};
ghost use Rattle.vet_http.specs.HeldAsked.{HeldStays, RepeatsStay};
ghost use Rattle.vet_requests.specs.Reply.{not_allowed, plain_reply};
ghost use Rattle.vet_http.specs.ReplyRoom.{HasRoom};
ghost use Rattle.vet_requests.specs.Route.{asked_at, asked_by, told_methods};
ghost use Rattle.vet_requests.specs.Path.{route_at, route_of};
ghost use Rattle.vet_http.specs.Shown.{IsShown};
ghost use Rattle.vet_http.specs.Told.{refusal_reply};
ghost use Rattle.vet_rows.specs.RowsOf.{rows_of};
ghost use Rattle.vet_store.specs.Beside.{OthersStay};
ghost use Rattle.vet_store.specs.Crash.{LeavesEither};
ghost use Rattle.vet_store.specs.Repeats as stored;
ghost use Rattle.vet_store.specs.Runs.{Fails, IsOfStore, IsTurn};
ghost use Rattle.vet_store.specs.Tied.{IsTied};

use crate::given::read_given;
use crate::shown::show;
use crate::told::ReplyRoom;
use sqlite::Alter;
use std::alloc::Global;
use vet_base::day::Day;
use vet_base::refusal::Refusal;
use vet_graph::keeper::Keeper;
use vet_register::command::{Command, Outcome};
use vet_register::register::Register;
use vet_requests::reply::Reply;
use vet_requests::request::Request;
use vet_requests::route::{BodyKind, Route, RouteAction, Routes, Shown};
use vet_requests::status::Status;
use vet_store::store::Store;

/// The answer to a request: a reply, or the outcome of its command. The reply to an outcome is written into room that
/// was reserved before.
pub(crate) enum Answered {
    Reply(Reply),
    Outcome(Outcome),
}

/// The reply to a request on a day. A refusal of the command or of a parameter is a reply too. Refused, with nothing
/// changed: `NoMemory` if memory runs out for the routes or for the room of the reply.
pub fn answer<S: Alter, K: Keeper>(
    alloc: Global,
    store: &mut Store<S, K>,
    day: Day,
    request: &Request,
) -> Result<Reply, Refusal>
    ensures reply { IfOk result (λ reply.
        IsReplyTo day request.now store.old.register.state reply store.new.register.state) }
    ensures repeats { IfOk result (λ reply.
        RepeatsStay (asked_for day request.now) store.old.register.state reply store.new.register.state) }
    ensures memory { IfErr result (λ e. e ≡ Refusal.NoMemory) }
    ensures err { OnErr result (store.new ≡ store.old) }
    ensures tables { IsTied (state S.Store store.new.conn) store.new.shut (rows_of store.new.register.state) }
    ensures closed { IsTrue store.old.shut → store.new ≡ store.old }
    ensures others { OthersStay (state S.Store store.old.conn) (state S.Store store.new.conn) }
    ensures refuses { IsTrue store.old.shut → IfOk result (λ reply.
        IsToldRefused (asked_for day request.now) reply) }
    ensures shuts { store.old.shut ≡ false → IsTrue store.new.shut → IfOk result (λ reply.
        IsToldCutOff (asked_for day request.now) store.new.register.state (state S.Store store.new.conn) reply) }
{
    store.tables_are_of_register();
    let routes = Routes::new(alloc)?;
    answer_by(alloc, &routes, store, day, request)
}

/// The reply to a request on a day, as `answer` gives it, by routes that are made once for many requests.
pub fn answer_by<S: Alter, K: Keeper>(
    alloc: Global,
    routes: &Routes,
    store: &mut Store<S, K>,
    day: Day,
    request: &Request,
) -> Result<Reply, Refusal>
    ensures reply { IfOk result (λ reply.
        IsReplyTo day request.now store.old.register.state reply store.new.register.state) }
    ensures repeats { IfOk result (λ reply.
        RepeatsStay (asked_for day request.now) store.old.register.state reply store.new.register.state) }
    ensures memory { IfErr result (λ e. e ≡ Refusal.NoMemory) }
    ensures err { OnErr result (store.new ≡ store.old) }
    ensures tables { IsTied (state S.Store store.new.conn) store.new.shut (rows_of store.new.register.state) }
    ensures closed { IsTrue store.old.shut → store.new ≡ store.old }
    ensures others { OthersStay (state S.Store store.old.conn) (state S.Store store.new.conn) }
    ensures refuses { IsTrue store.old.shut → IfOk result (λ reply.
        IsToldRefused (asked_for day request.now) reply) }
    ensures shuts { store.old.shut ≡ false → IsTrue store.new.shut → IfOk result (λ reply.
        IsToldCutOff (asked_for day request.now) store.new.register.state (state S.Store store.new.conn) reply) }
{
    store.tables_are_of_register();
    let room = ReplyRoom::take(alloc)?;
    let answered = answer_by_route(alloc, routes, store, day, request);
    store.tables_are_of_register();
    Ok(tell(alloc, room, answered))
}

// The reply to an answer, in the room for it.
fn tell(alloc: Global, room: ReplyRoom, answered: Result<Answered, Refusal>) -> Reply
    requires { HasRoom room }
    ensures { Tells answered result }
{
    match answered {
        Ok(Answered::Reply(reply)) => reply,
        Ok(Answered::Outcome(outcome)) => room.of_outcome(&outcome),
        Err(refusal) => room.of_refusal(alloc, &refusal),
    }
}

// The answer at the route of the target. A target that is not UTF-8 has none.
fn answer_by_route<S: Alter, K: Keeper>(
    alloc: Global,
    routes: &Routes,
    store: &mut Store<S, K>,
    day: Day,
    request: &Request,
) -> Result<Answered, Refusal>
    ensures answer { IfOk result (λ a.
        IsByRoute (route_of request.now.target) day request.now store.old.register.state (reply_of a)
        store.new.register.state) }
    ensures refused { IfErr result (λ e. IsOfStore e
        ⊎ IsByRoute (route_of request.now.target) day request.now store.old.register.state (refusal_reply e)
        store.old.register.state) }
    ensures repeats { HeldStays (asked_for day request.now)
        store.old.register.state result store.new.register.state }
    ensures err { OnErr result (store.new.register.state ≡ store.old.register.state) }
    ensures closed { IsTrue store.old.shut → store.new ≡ store.old }
    ensures others { OthersStay (state S.Store store.old.conn) (state S.Store store.new.conn) }
    ensures refuses { IsTrue store.old.shut → IsRefused (asked_for day request.now) result }
    ensures shuts { store.old.shut ≡ false → IsTrue store.new.shut
        → IsCutOff (asked_for day request.now) store.new.register.state
        (state S.Store store.new.conn) result }
{
    match str::from_utf8(request.target()) {
        Ok(target) => answer_at(alloc, routes, store, day, request, target),
        Err(_) => not_found(alloc),
    }
}

// The answer at the route of a target.
fn answer_at<S: Alter, K: Keeper>(
    alloc: Global,
    routes: &Routes,
    store: &mut Store<S, K>,
    day: Day,
    request: &Request,
    target: &str,
) -> Result<Answered, Refusal>
    requires { target.now ≡ request.now.target }
    ensures answer { IfOk result (λ a.
        IsByRoute (route_at target.now) day request.now store.old.register.state (reply_of a)
        store.new.register.state) }
    ensures refused { IfErr result (λ e. IsOfStore e
        ⊎ IsByRoute (route_at target.now) day request.now store.old.register.state (refusal_reply e)
        store.old.register.state) }
    ensures repeats { HeldStays (given_at day request.now (route_at target.now))
        store.old.register.state result store.new.register.state }
    ensures err { OnErr result (store.new.register.state ≡ store.old.register.state) }
    ensures closed { IsTrue store.old.shut → store.new ≡ store.old }
    ensures others { OthersStay (state S.Store store.old.conn) (state S.Store store.new.conn) }
    ensures refuses { IsTrue store.old.shut → IsRefused (given_at day request.now (route_at target.now)) result }
    ensures shuts { store.old.shut ≡ false → IsTrue store.new.shut
        → IsCutOff (given_at day request.now (route_at target.now)) store.new.register.state
        (state S.Store store.new.conn) result }
{
    match routes.find(target) {
        Some(route) => answer_by_method(alloc, store, day, request, target, route),
        None => not_found(alloc),
    }
}

// The answer if a target has no route.
fn not_found(alloc: Global) -> Result<Answered, Refusal>
    ensures reply { IfOk result (λ a. reply_of a ≡ plain_reply Status.NotFound) }
    ensures memory { IfErr result (λ e. e ≡ Refusal.NoMemory) }
{
    let reply = Reply::plain(alloc, Status::NotFound)?;
    Ok(Answered::Reply(reply))
}

// The answer at a route, by the method.
fn answer_by_method<S: Alter, K: Keeper>(
    alloc: Global,
    store: &mut Store<S, K>,
    day: Day,
    request: &Request,
    target: &str,
    route: Route,
) -> Result<Answered, Refusal>
    requires { target.now ≡ request.now.target }
    ensures answer { IfOk result (λ a.
        IsByMethod route (asked_by request.now.method (asked_at route)) day request.now store.old.register.state
        (reply_of a) store.new.register.state) }
    ensures refused { IfErr result (λ e. IsOfStore e
        ⊎ IsByMethod route (asked_by request.now.method (asked_at route)) day request.now store.old.register.state
        (refusal_reply e) store.old.register.state) }
    ensures repeats { HeldStays (given_by day request.now (asked_by request.now.method (asked_at route)))
        store.old.register.state result store.new.register.state }
    ensures err { OnErr result (store.new.register.state ≡ store.old.register.state) }
    ensures closed { IsTrue store.old.shut → store.new ≡ store.old }
    ensures others { OthersStay (state S.Store store.old.conn) (state S.Store store.new.conn) }
    ensures refuses { IsTrue store.old.shut
        → IsRefused (given_by day request.now (asked_by request.now.method (asked_at route))) result }
    ensures shuts { store.old.shut ≡ false → IsTrue store.new.shut
        → IsCutOff (given_by day request.now (asked_by request.now.method (asked_at route))) store.new.register.state
        (state S.Store store.new.conn) result }
{
    match route.asked(request.method()) {
        Some(RouteAction::Shows(what)) => shown(alloc, store.register(), what, target),
        Some(RouteAction::Runs(given)) => run_given(alloc, store, day, given, target, request),
        None => not_allowed(alloc, route),
    }
}

// The answer if a route lacks the method.
fn not_allowed(alloc: Global, route: Route) -> Result<Answered, Refusal>
    ensures reply { IfOk result (λ a. reply_of a ≡ not_allowed (told_methods (asked_at route))) }
    ensures memory { IfErr result (λ e. e ≡ Refusal.NoMemory) }
{
    let reply = Reply::not_allowed(alloc, route.methods())?;
    Ok(Answered::Reply(reply))
}

// The answer that shows something.
fn shown<K: Keeper>(
    alloc: Global,
    register: &Register<K>,
    what: Shown,
    target: &str,
) -> Result<Answered, Refusal>
    ensures shown { IfOk result (λ a. IsShown what target.now register.now.state (reply_of a)) }
    ensures refused { IfErr result (λ e.
        (e ≡ Refusal.NoMemory) ⊎ IsShown what target.now register.now.state (refusal_reply e)) }
{
    let reply = show(alloc, register, what, target)?;
    Ok(Answered::Reply(reply))
}

// The outcome of the command that a request gives.
fn run_given<S: Alter, K: Keeper>(
    alloc: Global,
    store: &mut Store<S, K>,
    day: Day,
    given: BodyKind,
    target: &str,
    request: &Request,
) -> Result<Answered, Refusal>
    ensures answer { IfOk result (λ a.
        IsRun (given_told given day target.now request.now) store.old.register.state (reply_of a)
        store.new.register.state) }
    ensures refused { IfErr result (λ e. IsOfStore e
        ⊎ IsRun (given_told given day target.now request.now) store.old.register.state (refusal_reply e)
        store.old.register.state) }
    ensures repeats { HeldStays (given_in (given_told given day target.now request.now))
        store.old.register.state result store.new.register.state }
    ensures err { OnErr result (store.new.register.state ≡ store.old.register.state) }
    ensures closed { IsTrue store.old.shut → store.new ≡ store.old }
    ensures others { OthersStay (state S.Store store.old.conn) (state S.Store store.new.conn) }
    ensures refuses { IsTrue store.old.shut
        → IsRefused (given_in (given_told given day target.now request.now)) result }
    ensures shuts { store.old.shut ≡ false → IsTrue store.new.shut
        → IsCutOff (given_in (given_told given day target.now request.now)) store.new.register.state
        (state S.Store store.new.conn) result }
{
    let command = read_given(alloc, given, day, target, request)?;
    let outcome = run_command(alloc, store, &command)?;
    Ok(Answered::Outcome(outcome))
}

// The outcome of a command.
fn run_command<S: Alter, K: Keeper>(
    alloc: Global,
    store: &mut Store<S, K>,
    command: &Command,
) -> Result<Outcome, Refusal>
    ensures turn { IsTurn store.old.register.state command.now result store.new.register.state }
    ensures repeats { stored.RepeatsStay store.old.register.state command.now result store.new.register.state }
    ensures closed { IsTrue store.old.shut → store.new ≡ store.old }
    ensures others { OthersStay (state S.Store store.old.conn) (state S.Store store.new.conn) }
    ensures refuses { IsTrue store.old.shut → result ≡ Err Refusal.StoreRefused }
    ensures shuts { store.old.shut ≡ false → IsTrue store.new.shut → Fails result }
    ensures leaves { store.old.shut ≡ false → HasCleanDisk (state S.Store store.new.conn)
        → LeavesEither (state S.Store store.new.conn) store.old.register.state command.now }
{
    store.run(alloc, command)
}
