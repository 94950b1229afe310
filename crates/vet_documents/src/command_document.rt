//! Command documents.
//!
//! **The bytes of a document give the command that its definition finds in them, or their first fault.**
ghost use Rattle.std.specs.Option.{option_copied};
ghost use Rattle.toml.specs.View.{table_view};
ghost use Rattle.vet_base.specs.Gives.{Gives};
ghost use Rattle.vet_documents.specs.CommandDocument.{action_told, close_period_told, command_told, set_day_told};
ghost use Rattle.vet_documents.specs.CommandDocument.{word_told};

use crate::command_word::CommandWord;
use crate::criterion_document::{read_remove_criterion, read_set_criterion};
use crate::desk_document::{
    read_add_member, read_assign_review, read_finish_review, read_open_review, read_withdraw_review,
};
use crate::document_field::text_at;
use crate::document_keys::{COMMAND, refuse_others};
use crate::entry_document::{read_add_entry, read_drop_entry};
use crate::files_document::read_replace_files;
use crate::peer_document::{read_drop_peer, read_import_peer, read_set_peer};
use crate::policy_document::{read_drop_policy, read_set_policy};
use crate::project_document::{read_drop_project, read_load_project};
use crate::publishers_document::read_set_publishers;
use std::alloc::Global;
use toml::Table;
use vet_base::day::Day;
use vet_base::document::check_length;
use vet_base::refusal::Refusal;
use vet_files::field::fault;
use vet_files::read::document::read_document;
use vet_register::command::{Action, Command};

/// Reads the command of a document that is given on a day, and by a member if one is named beside it. The member
/// matters only for a command that finishes or withdraws a review, and is looked at last.
///
/// Refused, for the first reason that applies: `TooLarge` of `input` for more than 8,388,608 bytes; `TomlRefused` if
/// they are not a TOML document in UTF-8. Then key by key, in the order of the command: `BadName`, `BadVersion`,
/// `BadRequirement`, `BadDay` and `BadDelta` for a text that is not such a value, `TooLarge` of `text`, and
/// `FieldRefused` for anything else that does not belong at its key or is missing. Then `FieldRefused` for the least
/// key that is not one of the command's, then the refusals of the readers of the files within the document, and last
/// `BadName` and `FieldRefused` for the member. `NoMemory` can come at any point.
pub fn read_command(
    alloc: Global,
    document: &[u8],
    day: Day,
    member: Option<&[u8]>,
) -> Result<Command, Refusal>
    ensures { Gives (λ command. command) (command_told document.now day (option_copied member.entry)) result }
{
    check_length(document)?;
    let table = read_document(alloc, document)?;
    let word = read_word(alloc, &table)?;
    let action = read_action(alloc, member, &table, word)?;
    Ok(Command { day, action })
}

/// The word of the command.
fn read_word(alloc: Global, document: &Table) -> Result<CommandWord, Refusal>
    ensures { Gives (λ w. w) (word_told (table_view document.now)) result }
{
    let word = text_at(alloc, document, COMMAND)?;
    match CommandWord::of_word(word) {
        Some(command) => Ok(command),
        None => Err(fault(alloc, COMMAND, COMMAND)),
    }
}

/// The action that the command of a word asks for. A new command adds a row here, and a row in the table of words.
fn read_action(
    alloc: Global,
    giver: Option<&[u8]>,
    document: &Table,
    word: CommandWord,
) -> Result<Action, Refusal>
    ensures { Gives (λ action. action)
        (action_told (option_copied giver.entry) (table_view document.now) word) result }
{
    match word {
        CommandWord::SetCriterion => read_set_criterion(alloc, document),
        CommandWord::RemoveCriterion => read_remove_criterion(alloc, document),
        CommandWord::AddEntry => read_add_entry(alloc, document),
        CommandWord::DropEntry => read_drop_entry(alloc, document),
        CommandWord::SetPolicy => read_set_policy(alloc, document),
        CommandWord::DropPolicy => read_drop_policy(alloc, document),
        CommandWord::SetPeer => read_set_peer(alloc, document),
        CommandWord::DropPeer => read_drop_peer(alloc, document),
        CommandWord::ImportPeer => read_import_peer(alloc, document),
        CommandWord::SetPublishers => read_set_publishers(alloc, document),
        CommandWord::LoadProject => read_load_project(alloc, document),
        CommandWord::DropProject => read_drop_project(alloc, document),
        CommandWord::ReplaceFiles => read_replace_files(alloc, document),
        CommandWord::ClosePeriod => read_close_period(alloc, document),
        CommandWord::SetDay => read_set_day(alloc, document),
        CommandWord::AddMember => read_add_member(alloc, document),
        CommandWord::OpenReview => read_open_review(alloc, document),
        CommandWord::AssignReview => read_assign_review(alloc, document),
        CommandWord::FinishReview => read_finish_review(alloc, document, giver),
        CommandWord::WithdrawReview => read_withdraw_review(alloc, document, giver),
    }
}

/// Reads the command that closes the period.
fn read_close_period(alloc: Global, document: &Table) -> Result<Action, Refusal>
    ensures { Gives (λ action. action) (close_period_told (table_view document.now)) result }
{
    refuse_others(alloc, COMMAND, document, &[COMMAND])?;
    Ok(Action::ClosePeriod)
}

/// Reads the command that sets the register's day to that of the command. `set-day` has no keys.
fn read_set_day(alloc: Global, document: &Table) -> Result<Action, Refusal>
    ensures { Gives (λ action. action) (set_day_told (table_view document.now)) result }
{
    let known = [COMMAND];
    refuse_others(alloc, COMMAND, document, &known)?;
    Ok(Action::SetDay)
}
