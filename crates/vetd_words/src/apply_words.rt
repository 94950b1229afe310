//! The words of an apply command.
ghost use Rattle.std.specs.Prelude.{◌≡◌, ◌≢◌, [], IfErr, IfOk, codes, map, option_and_then, option_map};
ghost use Rattle.clap.specs.Words.{found_of, kind_of, rows_of, subcommand_rows_of};
ghost use Rattle.vetd_words.specs.ApplyGiven.{apply_given};
ghost use Rattle.vetd_words.specs.ApplyWords.{apply_asked, apply_from};
ghost use Rattle.vetd_words.specs.Words.{IsErrorOf, faults_of, rows_if_named};

use crate::words::{matches_if_named, matches_of, value, words_error};
use clap::error::ErrorKind;
use clap::{ArgMatches, Error};
use std::alloc::Global;
use std::convert::AsStr;

/// An apply command: the path of a database file, the text of a day, and the member who gives the command, if one is
/// given.
#[derive(Clone, Copy)]
pub struct ApplyWords<'a> {
    pub path: &'a str,
    pub day: &'a str,
    pub member: Option<&'a str>,
}

/// Parses the words of an apply command, which come without the program's own name. Refused: clap's error for words
/// that are not a command line or ask for help, an error for words that are another command, and `OutOfMemory`.
pub fn apply_words<'a, S: AsStr>(alloc: Global, words: &'a [S]) -> Result<ApplyWords<'a>, Error>
    ensures found { IfOk result (λ asked. apply_given (map S.text words.entry.now) ≡ Some (apply_asked asked)) }
    ensures refused { IfErr result (λ error. kind_of error ≢ ErrorKind.OutOfMemory
        → apply_given (map S.text words.entry.now) ≡ None) }
    ensures clean { IfOk result (λ _. faults_of (map S.text words.entry.now) ≡ []) }
    ensures kinds { IfErr result (λ error. IsErrorOf (map S.text words.entry.now) (kind_of error)) }
{
    let matches = matches_of(alloc, words)?;
    match asked_by(&matches) {
        Some(asked) => Ok(asked),
        None => Err(words_error(
            alloc,
            ErrorKind::MissingSubcommand,
            "no command was applied",
        )?),
    }
}

/// The apply command, if the words are one.
fn asked_by<'a>(matches: &ArgMatches<'a>) -> Option<ApplyWords<'a>>
    ensures { option_map apply_asked result
        ≡ option_and_then apply_from (rows_if_named (codes "apply") (subcommand_rows_of matches.now)) }
{
    words_of(matches_if_named(matches, "apply")?)
}

/// The values of the options of an apply command, if the required ones are given.
fn words_of<'a>(subcommand: &ArgMatches<'a>) -> Option<ApplyWords<'a>>
    ensures { option_map apply_asked result ≡ apply_from (rows_of (found_of subcommand.now)) }
{
    let path = value(subcommand, "db")?;
    let day = value(subcommand, "day")?;
    let member = value(subcommand, "member");
    Some(ApplyWords { path, day, member })
}
