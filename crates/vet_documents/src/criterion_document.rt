//! The documents of the commands to criteria.
ghost use Rattle.toml.specs.View.{table_view};
ghost use Rattle.vet_base.specs.Gives.{Gives};
ghost use Rattle.vet_documents.specs.CriterionDocument.{criterion_told, remove_criterion_told, set_criterion_told};

use crate::document_field::word_at;
use crate::document_keys::{COMMAND, NAME, refuse_others};
use crate::names_at::names_if_any;
use std::alloc::Global;
use toml::Table;
use vet_base::criterion::Criterion;
use vet_base::names::Names;
use vet_base::refusal::Refusal;
use vet_files::field::optional;
use vet_files::keys::{DESCRIPTION, DESCRIPTION_URL, IMPLIES};
use vet_register::command::Action;

/// Reads the command that sets the criterion of a document.
pub(crate) fn read_set_criterion(alloc: Global, document: &Table) -> Result<Action, Refusal>
    ensures { Gives (λ action. action) (set_criterion_told (table_view document.now)) result }
{
    let criterion = read_criterion(alloc, document)?;
    refuse_others(
        alloc,
        COMMAND,
        document,
        &[COMMAND, NAME, DESCRIPTION, DESCRIPTION_URL, IMPLIES],
    )?;
    Ok(Action::SetCriterion(criterion))
}

/// Reads the command that removes the criterion of a document.
pub(crate) fn read_remove_criterion(alloc: Global, document: &Table) -> Result<Action, Refusal>
    ensures { Gives (λ action. action) (remove_criterion_told (table_view document.now)) result }
{
    let name = word_at(alloc, COMMAND, document, NAME)?;
    refuse_others(alloc, COMMAND, document, &[COMMAND, NAME])?;
    Ok(Action::RemoveCriterion(name))
}

/// The criterion of a document.
fn read_criterion(alloc: Global, document: &Table) -> Result<Criterion, Refusal>
    ensures { Gives (λ c. c) (criterion_told (table_view document.now)) result }
{
    let name = word_at(alloc, COMMAND, document, NAME)?;
    let description = optional(alloc, COMMAND, document, DESCRIPTION)?;
    let url = optional(alloc, COMMAND, document, DESCRIPTION_URL)?;
    let implies = names_if_any(alloc, document, IMPLIES)?;
    Ok(Criterion {
        name,
        description,
        url,
        implies: implies.unwrap_or(Names::new(alloc)),
    })
}
