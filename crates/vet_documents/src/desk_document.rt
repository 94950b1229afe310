//! The documents of the commands to the review desk, and the member who gives one.
ghost use Rattle.std.specs.Option.{option_copied};
ghost use Rattle.toml.specs.View.{table_view};
ghost use Rattle.vet_base.specs.Gives.{Gives};
ghost use Rattle.vet_documents.specs.DeskDocument.{add_member_told, assign_review_told, delta_reviewed_told};
ghost use Rattle.vet_documents.specs.DeskDocument.{finish_review_told, giver_told, name_of_bytes, open_review_told};
ghost use Rattle.vet_documents.specs.DeskDocument.{reviewed_told, version_reviewed_told, withdraw_review_told};

use crate::document_field::{number_at, word_at};
use crate::document_keys::{COMMAND, HEAD, MEMBER, PACKAGE, REVIEW, VET_MEMBER, refuse_others};
use crate::names_at::names_at;
use std::alloc::Global;
use toml::Table;
use vet_base::name::Name;
use vet_base::refusal::Refusal;
use vet_desk::command::{DeskCommand, Reviewed};
use vet_files::field::{fault, value_at};
use vet_files::keys::{CRITERIA, DELTA, VERSION};
use vet_register::command::Action;

/// Reads the command that adds the member of a document.
pub(crate) fn read_add_member(alloc: Global, document: &Table) -> Result<Action, Refusal>
    ensures { Gives (λ action. action) (add_member_told (table_view document.now)) result }
{
    let name = word_at(alloc, COMMAND, document, MEMBER)?;
    refuse_others(alloc, COMMAND, document, &[COMMAND, MEMBER])?;
    Ok(Action::Desk(DeskCommand::AddMember(name)))
}

/// Reads the command that opens the review of a document.
pub(crate) fn read_open_review(alloc: Global, document: &Table) -> Result<Action, Refusal>
    ensures { Gives (λ action. action) (open_review_told (table_view document.now)) result }
{
    let package = word_at(alloc, COMMAND, document, PACKAGE)?;
    let version = word_at(alloc, COMMAND, document, VERSION)?;
    let criteria = names_at(alloc, document, CRITERIA)?;
    refuse_others(
        alloc,
        COMMAND,
        document,
        &[COMMAND, PACKAGE, VERSION, CRITERIA],
    )?;
    Ok(Action::Desk(DeskCommand::OpenReview {
        package,
        version,
        criteria,
    }))
}

/// Reads the command that assigns a review to a member.
pub(crate) fn read_assign_review(alloc: Global, document: &Table) -> Result<Action, Refusal>
    ensures { Gives (λ action. action) (assign_review_told (table_view document.now)) result }
{
    let review = number_at(alloc, document, REVIEW)?;
    let member = word_at(alloc, COMMAND, document, MEMBER)?;
    refuse_others(alloc, COMMAND, document, &[COMMAND, REVIEW, MEMBER])?;
    Ok(Action::Desk(DeskCommand::AssignReview { review, member }))
}

/// Reads the command that finishes a review, in the name of its giver. The giver is looked at last.
pub(crate) fn read_finish_review(
    alloc: Global,
    document: &Table,
    giver: Option<&[u8]>,
) -> Result<Action, Refusal>
    ensures { Gives (λ action. action)
        (finish_review_told (option_copied giver.entry) (table_view document.now)) result }
{
    let review = number_at(alloc, document, REVIEW)?;
    let reviewed = read_reviewed(alloc, document)?;
    refuse_others(alloc, COMMAND, document, &[COMMAND, REVIEW, VERSION, DELTA])?;
    let member = read_giver(alloc, giver)?;
    Ok(Action::Desk(DeskCommand::FinishReview {
        review,
        member,
        reviewed,
    }))
}

/// Reads the command that withdraws a review, in the name of its giver. The giver is looked at last.
pub(crate) fn read_withdraw_review(
    alloc: Global,
    document: &Table,
    giver: Option<&[u8]>,
) -> Result<Action, Refusal>
    ensures { Gives (λ action. action)
        (withdraw_review_told (option_copied giver.entry) (table_view document.now)) result }
{
    let review = number_at(alloc, document, REVIEW)?;
    refuse_others(alloc, COMMAND, document, &[COMMAND, REVIEW])?;
    let member = read_giver(alloc, giver)?;
    Ok(Action::Desk(DeskCommand::WithdrawReview { review, member }))
}

/// The version or the delta that finishes a review. Both together are a fault.
fn read_reviewed(alloc: Global, document: &Table) -> Result<Reviewed, Refusal>
    ensures { Gives (λ r. r) (reviewed_told (table_view document.now)) result }
{
    if value_at(document, VERSION).is_some() {
        return read_version_reviewed(alloc, document);
    }
    if value_at(document, DELTA).is_some() {
        return read_delta_reviewed(alloc, document);
    }
    Err(fault(alloc, COMMAND, VERSION))
}

/// The version that finishes a review. A delta beside it is a fault.
fn read_version_reviewed(alloc: Global, document: &Table) -> Result<Reviewed, Refusal>
    ensures { Gives (λ r. r) (version_reviewed_told (table_view document.now)) result }
{
    let version = word_at(alloc, COMMAND, document, VERSION)?;
    if value_at(document, DELTA).is_some() {
        return Err(fault(alloc, COMMAND, DELTA));
    }
    Ok(Reviewed::Version(version))
}

/// The delta that finishes a review.
fn read_delta_reviewed(alloc: Global, document: &Table) -> Result<Reviewed, Refusal>
    ensures { Gives (λ r. r) (delta_reviewed_told (table_view document.now)) result }
{
    Ok(Reviewed::Delta(word_at(alloc, COMMAND, document, DELTA)?))
}

/// The member who gives a command.
fn read_giver(alloc: Global, giver: Option<&[u8]>) -> Result<Name, Refusal>
    ensures { Gives (λ n. n) (giver_told (option_copied giver.entry)) result }
{
    match giver {
        Some(bytes) => name_of_bytes(alloc, bytes),
        None => Err(fault(alloc, HEAD, VET_MEMBER)),
    }
}

/// The name that some bytes state. Bytes that are not UTF-8 are refused as `BadName`.
fn name_of_bytes(alloc: Global, bytes: &[u8]) -> Result<Name, Refusal>
    ensures { Gives (λ n. n) (name_of_bytes bytes.now) result }
{
    match str::from_utf8(bytes) {
        Ok(text) => Name::parse(alloc, text),
        Err(_) => Err(Refusal::BadName),
    }
}
