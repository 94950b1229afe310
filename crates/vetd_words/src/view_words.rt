//! The words of a command that prints a text of a register.
ghost use Rattle.std.specs.Prelude.{◌≡◌, ◌≢◌, [], IfErr, IfOk, map, option_and_then, option_map};
ghost use Rattle.clap.specs.Words.{found_of, kind_of, rows_of, subcommand_rows_of};
ghost use Rattle.vetd_words.specs.ViewWords.{name_of, view_asked, view_from, view_given, view_named};
ghost use Rattle.vetd_words.specs.Words.{IsErrorOf, faults_of, kind_word, rows_if_named};

use crate::file_word::{FILE_WORDS, file_of_word};
use crate::view::View;
use crate::words::{
    export_command, invalid_kind, matches_if_named, matches_of, report_command, value,
};
use clap::error::ErrorKind;
use clap::{ArgMatches, Error};
use std::alloc::{AllocError, Global};
use std::convert::AsStr;
use vet_reports::report::{REPORT_WORDS, Report};

/// A command that prints a text of a register. A new one needs a row here and in each function below.
#[derive(Clone, Copy)]
pub enum ViewCommand {
    Export,
    Report,
}

/// The path of a register, and the text of it that is to be printed.
#[derive(Clone, Copy)]
pub struct ViewWords<'a> {
    pub path: &'a str,
    pub view: View,
}

impl ViewCommand {
    /// The word with which its command line begins.
    fn name(self) -> &'static str
        ensures { result.now ≡ name_of self }
    {
        match self {
            ViewCommand::Export => "export",
            ViewCommand::Report => "report",
        }
    }

    /// The text that a word for KIND asks for, if it names one.
    fn view(self, word: &str) -> Option<View>
        ensures { result ≡ view_named self word.now }
    {
        match self {
            ViewCommand::Export => Some(View::Export(file_of_word(word)?)),
            ViewCommand::Report => Some(View::Report(Report::named(word)?)),
        }
    }
}

/// Parses the words of such a command, which come without the program's own name. Refused: clap's error for words that
/// are not a command line or ask for help, an error for words that are another command or name no kind, and
/// `OutOfMemory`.
pub fn view_words<'a, S: AsStr>(
    alloc: Global,
    command: ViewCommand,
    words: &'a [S],
) -> Result<ViewWords<'a>, Error>
    ensures found { IfOk result (λ asked.
        view_given command (map S.text words.entry.now) ≡ Some (view_asked asked)) }
    ensures refused { IfErr result (λ error. kind_of error ≢ ErrorKind.OutOfMemory
        → view_given command (map S.text words.entry.now) ≡ None) }
    ensures clean { IfOk result (λ _. faults_of (map S.text words.entry.now) ≡ []) }
    ensures kinds { IfErr result (λ error. IsErrorOf (map S.text words.entry.now) (kind_of error)) }
{
    let matches = matches_of(alloc, words)?;
    match asked_by(command, &matches) {
        Some(asked) => Ok(asked),
        None => Err(no_kind(alloc, command, &matches)?),
    }
}

/// The error for a word that is no kind, which it names, or for words that are another command.
fn no_kind(
    alloc: Global,
    command: ViewCommand,
    matches: &ArgMatches<'_>,
) -> Result<Error, AllocError>
    ensures { IfOk result (λ error. kind_of error ≡ ErrorKind.InvalidValue) }
{
    let word = kind_word(command, matches).unwrap_or("");
    match command {
        ViewCommand::Export => {
            let shown = export_command(alloc)?.bin_name("vetd export")?;
            invalid_kind(alloc, shown, word, FILE_WORDS)
        }
        ViewCommand::Report => {
            let shown = report_command(alloc)?.bin_name("vetd report")?;
            invalid_kind(alloc, shown, word, REPORT_WORDS)
        }
    }
}

/// The word for KIND, if the words are such a command.
fn kind_word<'a>(command: ViewCommand, matches: &ArgMatches<'a>) -> Option<&'a str>
    ensures { option_map (λ s. s.now) result ≡ kind_word (name_of command) (subcommand_rows_of matches.now) }
{
    value(matches_if_named(matches, command.name())?, "KIND")
}

/// The path and the text that such a command asks for, if the words are one.
fn asked_by<'a>(command: ViewCommand, matches: &ArgMatches<'a>) -> Option<ViewWords<'a>>
    ensures { option_map view_asked result
        ≡ option_and_then (view_from command) (rows_if_named (name_of command) (subcommand_rows_of matches.now)) }
{
    words_of(command, matches_if_named(matches, command.name())?)
}

/// The path, and the text that the word for KIND asks for, if both are given.
fn words_of<'a>(command: ViewCommand, subcommand: &ArgMatches<'a>) -> Option<ViewWords<'a>>
    ensures { option_map view_asked result ≡ view_from command (rows_of (found_of subcommand.now)) }
{
    let path = value(subcommand, "db")?;
    let view = command.view(value(subcommand, "KIND")?)?;
    Some(ViewWords { path, view })
}
