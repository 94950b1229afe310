//! The command that the body of a request gives.
ghost use Rattle.vet_base.specs.Gives.{Gives};
ghost use Rattle.vet_http.specs.Given.{given_told, peer_given, project_given};

use std::alloc::Global;
use vet_base::day::Day;
use vet_base::name::{Name, PackageName};
use vet_base::refusal::Refusal;
use vet_demand::project::NamedProject;
use vet_demand::table_reader::read_project;
use vet_documents::command_document::read_command;
use vet_files::imports_file::read_peer;
use vet_register::command::{Action, Command};
use vet_requests::parameter::first_parameter;
use vet_requests::request::Request;
use vet_requests::route::BodyKind;

/// The command that the body of a request gives on a day. Refused: `BadName` for a parameter, before the body is looked
/// at, and the refusals of the body's reader. `NoMemory` can come at any point.
#[tactic(auto, unfolding(crate::specs::Given::given_told))]
pub(crate) fn read_given(
    alloc: Global,
    given: BodyKind,
    day: Day,
    target: &str,
    request: &Request,
) -> Result<Command, Refusal>
    ensures { Gives (λ c. c) (given_told given day target.now request.now) result }
{
    match given {
        BodyKind::Project => {
            let action = read_given_project(alloc, target, request)?;
            Ok(Command { day, action })
        }
        BodyKind::Peer => {
            let action = read_given_peer(alloc, target, request)?;
            Ok(Command { day, action })
        }
        BodyKind::Document => read_command(alloc, request.body(), day, request.member()),
    }
}

// Reads the action that loads the project that the parameter names.
fn read_given_project(alloc: Global, target: &str, request: &Request) -> Result<Action, Refusal>
    ensures { Gives (λ a. a) (project_given target.now request.now) result }
{
    let name = PackageName::parse(alloc, first_parameter(target))?;
    let project = read_project(alloc, request.body())?;
    Ok(Action::LoadProject(NamedProject { name, project }))
}

// Reads the action that imports the audits file of the peer that the parameter names.
fn read_given_peer(alloc: Global, target: &str, request: &Request) -> Result<Action, Refusal>
    ensures { Gives (λ a. a) (peer_given target.now request.now) result }
{
    let name = Name::parse(alloc, first_parameter(target))?;
    let found = read_peer(alloc, request.body())?;
    Ok(Action::ImportPeer(name, found.content))
}
