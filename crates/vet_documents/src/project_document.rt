//! The documents of the commands to projects.
ghost use Rattle.toml.specs.View.{table_view};
ghost use Rattle.vet_base.specs.Gives.{Gives};
ghost use Rattle.vet_documents.specs.ProjectDocument.{drop_project_told, load_project_told};

use crate::document_field::{text_at, word_at};
use crate::document_keys::{COMMAND, CSV, PROJECT, refuse_others};
use std::alloc::Global;
use toml::Table;
use vet_base::refusal::Refusal;
use vet_demand::project::NamedProject;
use vet_demand::table_reader::read_project;
use vet_register::command::Action;

/// Reads the command that loads the project of a document. The dependency table is read only if nothing else is at
/// fault.
pub(crate) fn read_load_project(alloc: Global, document: &Table) -> Result<Action, Refusal>
    ensures { Gives (λ action. action) (load_project_told (table_view document.now)) result }
{
    let name = word_at(alloc, COMMAND, document, PROJECT)?;
    let table = text_at(alloc, document, CSV)?;
    refuse_others(alloc, COMMAND, document, &[COMMAND, PROJECT, CSV])?;
    let project = read_project(alloc, table.as_bytes())?;
    Ok(Action::LoadProject(NamedProject { name, project }))
}

/// Reads the command that drops the project of a name.
pub(crate) fn read_drop_project(alloc: Global, document: &Table) -> Result<Action, Refusal>
    ensures { Gives (λ action. action) (drop_project_told (table_view document.now)) result }
{
    let name = word_at(alloc, COMMAND, document, PROJECT)?;
    refuse_others(alloc, COMMAND, document, &[COMMAND, PROJECT])?;
    Ok(Action::DropProject(name))
}
