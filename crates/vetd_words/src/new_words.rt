//! The words of a new command.
ghost use Rattle.std.specs.Prelude.{◌≡◌, ◌≢◌, [], IfOk, IfErr, IfSome, IsSome, codes, is_none, map, true, ℕ};
ghost use Rattle.clap.specs.Words.{found_of, kind_of, rows_of, subcommand_rows_of};
ghost use Rattle.vetd_words.specs.NewAsked.{AsksNew, IsAskedBy, NewAsked, new_asked};
ghost use Rattle.vetd_words.specs.NewWords.{IsLimit};
ghost use Rattle.vetd_words.specs.Words.{IsErrorOf, faults_of, rows_if_named};

use crate::words::{matches_if_named, matches_of, value, words_error};
use clap::error::ErrorKind;
use clap::{ArgMatches, Error};
use std::alloc::Global;
use std::convert::AsStr;
use vet_base::limits::MOST_MOVES;

/// A new command: the path of a register, and how many moves a period of it may record, from 1 to 1,000,000.
#[derive(Clone, Copy)]
pub struct NewWords<'a> {
    pub path: &'a str,
    pub moves_limit: usize,
}

/// Parses the words of a new command, which come without the program's own name. Refused: clap's error for words that
/// are not a command line or ask for help, an error for words that are another command, and `OutOfMemory`.
pub fn new_words<'a, S: AsStr>(alloc: Global, words: &'a [S]) -> Result<NewWords<'a>, Error>
    ensures found { IfOk result (λ asked. AsksNew (map S.text words.entry.now) (new_asked asked)) }
    ensures refused { IfErr result (λ error. kind_of error ≢ ErrorKind.OutOfMemory
        → (asked : NewAsked) → AsksNew (map S.text words.entry.now) asked → ⊥) }
    ensures clean { IfOk result (λ _. faults_of (map S.text words.entry.now) ≡ []) }
    ensures kinds { IfErr result (λ error. IsErrorOf (map S.text words.entry.now) (kind_of error)) }
{
    let matches = matches_of(alloc, words)?;
    match asked_by(&matches) {
        Some(asked) => Ok(asked),
        None => Err(words_error(
            alloc,
            ErrorKind::MissingSubcommand,
            "no register was asked for",
        )?),
    }
}

/// The new command, if the words are one.
fn asked_by<'a>(matches: &ArgMatches<'a>) -> Option<NewWords<'a>>
    ensures some { IfSome result (λ words. IfSome (rows_if_named (codes "new") (subcommand_rows_of matches.now))
        (λ rows. IsAskedBy rows (new_asked words))) }
    ensures named { IsSome result → IsSome (rows_if_named (codes "new") (subcommand_rows_of matches.now)) }
    ensures none { is_none result ≡ true → IfSome (rows_if_named (codes "new") (subcommand_rows_of matches.now))
        (λ rows. (asked : NewAsked) → IsAskedBy rows asked → ⊥) }
{
    let subcommand = matches_if_named(matches, "new")?;
    words_of(subcommand)
}

/// The path and the limit of a new command, if both are given and the limit is in its range.
fn words_of<'a>(subcommand: &ArgMatches<'a>) -> Option<NewWords<'a>>
    ensures some { IfSome result (λ words. IsAskedBy (rows_of (found_of subcommand.now)) (new_asked words)) }
    ensures none { is_none result ≡ true → (asked : NewAsked)
        → IsAskedBy (rows_of (found_of subcommand.now)) asked → ⊥ }
{
    let path = value(subcommand, "db")?;
    let moves_limit = limit_of(value(subcommand, "moves-limit")?)?;
    Some(NewWords { path, moves_limit })
}

/// The limit of moves that a text is, if it is a number from 1 to 1,000,000.
fn limit_of(text: &str) -> Option<usize>
    ensures some { IfSome result (λ limit. IsLimit text.now limit) }
    ensures none { is_none result ≡ true → (limit : ℕ) → IsLimit text.now limit → ⊥ }
{
    match text.parse::<usize>() {
        Ok(limit) => {
            if 1 <= limit && limit <= MOST_MOVES {
                return Some(limit);
            }
            None
        }
        Err(_) => None,
    }
}
