//! Routes: the targets that exist, their methods, and the action of each method.
//!
//! **A target has the route that the table gives it. A method asks for what the row of the route says.**
//!
//! A new report adds a path to the table of `router`. Any other new route adds that, and a row each to `asked` and
//! `methods`. A name in braces in a path is a parameter: it matches any part of a target, between two slashes or after
//! the last one, that is not empty.
ghost use Rattle.std.specs.Prelude.{◌≡◌, ◌≤◌, IfErr, IfOk, length};
ghost use Rattle.matchit.specs.Seek.{first};
ghost use Rattle.std.specs.Prelude.{Some, None, if◌then◌else◌};
ghost use Rattle.std.specs.Str.{bytes_eq};
ghost use Rattle.vet_requests.specs.Route.{asked_at, asked_by, shown_alone, told_methods};
ghost use Rattle.vet_requests.specs.Path.{route_at};
ghost use Rattle.vet_requests.specs.RouteTable.{routed_at, table};

use crate::reply::MOST_ALLOW_BYTES;
use matchit::{InsertError, Router};
use std::alloc::{AllocError, Global};
use vet_base::refusal::Refusal;
use vet_reports::report::Report;

/// A route.
#[derive(Clone, Copy)]
pub enum Route {
    Report(Report),
    StandingOf,
    Class,
    File,
    Project,
    Peer,
    Commands,
}

/// A part of the register that can be shown.
#[derive(Clone, Copy)]
pub enum Shown {
    /// A report.
    Report(Report),
    /// The class of each demanded pair of a package.
    StandingOf,
    /// The class of one pair.
    Class,
    /// One of the three files of cargo-vet.
    File,
    /// The dependency table of a project.
    Project,
}

/// The content of a request's body, from which a command is made.
#[derive(Clone, Copy)]
pub enum BodyKind {
    /// The dependency table of a project, which is loaded.
    Project,
    /// The audits file of a peer, which is imported.
    Peer,
    /// A command document.
    Document,
}

/// The action that a request asks for.
#[derive(Clone, Copy)]
pub enum RouteAction {
    /// To show something. It changes nothing.
    Shows(Shown),
    /// To run the command that the body gives.
    Runs(BodyKind),
}

/// The routes, in which targets are looked up. They are made once for many requests.
#[derive(Drop)]
pub struct Routes {
    router: Router<Route>,
    ghost whole: { router ≡ table },
}

impl Routes {
    /// The paths and their routes.
    pub fn new(alloc: Global) -> Result<Routes, AllocError> {
        match router(alloc) {
            Ok(router) => Ok(Routes { router }),
            Err(_) => Err(AllocError),
        }
    }

    /// The route of a target that is a text, if it has one.
    pub fn find(&self, target: &str) -> Option<Route>
        ensures { result ≡ route_at target.now }
    {
        routed(&self.router, target)
    }
}

/// The route of a target that is a text, if it has one. Refused: `NoMemory`.
pub fn find_route(alloc: Global, target: &str) -> Result<Option<Route>, Refusal>
    ensures route { IfOk result (λ found. found ≡ route_at target.now) }
    ensures memory { IfErr result (λ e. e ≡ Refusal.NoMemory) }
{
    let routes = Routes::new(alloc)?;
    Ok(routes.find(target))
}

// The paths and their routes.
fn router(alloc: Global) -> Result<Router<Route>, InsertError>
    ensures { IfOk result (λ router. router ≡ table) }
{
    let mut router = Router::new(alloc);
    router.insert("/counts", Route::Report(Report::Counts))?;
    router.insert("/standing", Route::Report(Report::Standing))?;
    router.insert("/standing/{package}", Route::StandingOf)?;
    router.insert("/standing.csv", Route::Report(Report::StandingCsv))?;
    router.insert("/moves", Route::Report(Report::Moves))?;
    router.insert("/desk", Route::Report(Report::Desk))?;
    router.insert("/lapses", Route::Report(Report::Lapses))?;
    router.insert("/class/{package}/{version}/{criterion}", Route::Class)?;
    router.insert("/files/{file}", Route::File)?;
    router.insert("/projects/{project}", Route::Project)?;
    router.insert("/peers/{peer}", Route::Peer)?;
    router.insert("/commands", Route::Commands)?;
    Ok(router)
}

// The route that the router finds for a target.
fn routed(router: &Router<Route>, target: &str) -> Option<Route>
    requires { router.now ≡ table }
    ensures { result ≡ routed_at target.now }
{
    match router.at(target) {
        Ok(found) => Some(*found.value),
        Err(_) => None,
    }
}

impl Route {
    /// The action of a method at the route, if it has that method. Case matters in a method (RFC 9110, methods).
    pub fn asked(self, method: &[u8]) -> Option<RouteAction>
        ensures { result ≡ asked_by method.now (asked_at self) }
    {
        match self {
            Route::Report(report) => shown_by_get(method, Shown::Report(report)),
            Route::StandingOf => shown_by_get(method, Shown::StandingOf),
            Route::Class => shown_by_get(method, Shown::Class),
            Route::File => shown_by_get(method, Shown::File),
            Route::Project => asked_of_project(method),
            Route::Peer => given_by(method, b"PUT".as_slice(), BodyKind::Peer),
            Route::Commands => given_by(method, b"POST".as_slice(), BodyKind::Document),
        }
    }

    /// The methods of the route, separated by a comma and a space, as `Allow` lists them (RFC 9110, Allow).
    pub fn methods(self) -> &'static str
        ensures methods { result.now ≡ told_methods (asked_at self) }
        ensures short { length result.now ≤ MOST_ALLOW_BYTES }
    {
        match self {
            Route::Report(_) | Route::StandingOf | Route::Class | Route::File => "GET",
            Route::Project => "GET, PUT",
            Route::Peer => "PUT",
            Route::Commands => "POST",
        }
    }
}

// The action of a method at a route that only shows something.
fn shown_by_get(method: &[u8], shown: Shown) -> Option<RouteAction>
    ensures { result ≡ asked_by method.now (shown_alone shown) }
{
    if method == b"GET".as_slice() {
        Some(RouteAction::Shows(shown))
    } else {
        None
    }
}

// The action of a method at the route of a project.
fn asked_of_project(method: &[u8]) -> Option<RouteAction>
    ensures { result ≡ asked_by method.now (asked_at Route.Project) }
{
    if method == b"PUT".as_slice() {
        return Some(RouteAction::Runs(BodyKind::Project));
    }
    shown_by_get(method, Shown::Project)
}

// The action of a method at a route that has only the method `word`, by which something is given.
fn given_by(method: &[u8], word: &[u8], given: BodyKind) -> Option<RouteAction>
    ensures { result ≡ (if bytes_eq method.now word.now then Some (RouteAction.Runs given) else None) }
{
    if method == word {
        Some(RouteAction::Runs(given))
    } else {
        None
    }
}
