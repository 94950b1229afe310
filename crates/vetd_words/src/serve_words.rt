//! The words of a serve command.
ghost use Rattle.std.specs.Prelude.{◌≡◌, ◌≢◌, ◌≤◌, [], IfErr, IfOk, IfSome, IsSome, codes, is_none, map, true, ℕ};
ghost use Rattle.clap.specs.Words.{found_of, kind_of, rows_of, subcommand_rows_of};
ghost use Rattle.vetd_words.specs.ServeAsked.{AsksServe, IsServeAskedBy, ServeAsked, serve_asked};
ghost use Rattle.vetd_words.specs.ServeWords.{IsNumberUpTo};
ghost use Rattle.vetd_words.specs.Words.{IsErrorOf, faults_of, rows_if_named};

use crate::words::{matches_if_named, matches_of, value, words_error};
use clap::error::ErrorKind;
use clap::{ArgMatches, Error};
use std::alloc::Global;
use std::convert::AsStr;

/// The greatest number of a port.
pub const LAST_PORT: u32 = 65_535;

/// The greatest number of connections for which a run may wait.
pub const MOST_CONNECTIONS: u32 = 1_000_000;

/// A serve command: a port from 1 to 65,535, how many connections it waits for, from 1 to 1,000,000, and, if they are
/// given, the path of a database file and the text of a day.
#[derive(Clone, Copy)]
pub struct ServeWords<'a> {
    pub port: u16,
    pub connections: u32,
    pub path: Option<&'a str>,
    pub day: Option<&'a str>,
}

/// Parses the words of a serve command, which come without the program's own name. Refused: clap's error for words that
/// are not a command line or ask for help, an error for words that are another command, and `OutOfMemory`.
pub fn serve_words<'a, S: AsStr>(alloc: Global, words: &'a [S]) -> Result<ServeWords<'a>, Error>
    ensures found { IfOk result (λ asked. AsksServe (map S.text words.entry.now) (serve_asked asked)) }
    ensures few { IfOk result (λ asked. asked.connections ≤ MOST_CONNECTIONS) }
    ensures refused { IfErr result (λ error. kind_of error ≢ ErrorKind.OutOfMemory
        → (asked : ServeAsked) → AsksServe (map S.text words.entry.now) asked → ⊥) }
    ensures clean { IfOk result (λ _. faults_of (map S.text words.entry.now) ≡ []) }
    ensures kinds { IfErr result (λ error. IsErrorOf (map S.text words.entry.now) (kind_of error)) }
{
    let matches = matches_of(alloc, words)?;
    match asked_by(&matches) {
        Some(asked) => Ok(asked),
        None => Err(words_error(
            alloc,
            ErrorKind::MissingSubcommand,
            "no register was to be served",
        )?),
    }
}

/// The serve command, if the words are one.
fn asked_by<'a>(matches: &ArgMatches<'a>) -> Option<ServeWords<'a>>
    ensures some { IfSome result (λ words. IfSome (rows_if_named (codes "serve") (subcommand_rows_of matches.now))
        (λ rows. IsServeAskedBy rows (serve_asked words))) }
    ensures few { IfSome result (λ words. words.connections ≤ MOST_CONNECTIONS) }
    ensures named { IsSome result → IsSome (rows_if_named (codes "serve") (subcommand_rows_of matches.now)) }
    ensures none { is_none result ≡ true → IfSome (rows_if_named (codes "serve") (subcommand_rows_of matches.now))
        (λ rows. (asked : ServeAsked) → IsServeAskedBy rows asked → ⊥) }
{
    let subcommand = matches_if_named(matches, "serve")?;
    words_of(subcommand)
}

/// The values of the options of a serve command, if the required ones are given and in their ranges.
fn words_of<'a>(subcommand: &ArgMatches<'a>) -> Option<ServeWords<'a>>
    ensures some { IfSome result (λ words. IsServeAskedBy (rows_of (found_of subcommand.now)) (serve_asked words)) }
    ensures few { IfSome result (λ words. words.connections ≤ MOST_CONNECTIONS) }
    ensures none { is_none result ≡ true → (asked : ServeAsked)
        → IsServeAskedBy (rows_of (found_of subcommand.now)) asked → ⊥ }
{
    let port = number_up_to(LAST_PORT, value(subcommand, "port")?)? as u16;
    let connections = number_up_to(MOST_CONNECTIONS, value(subcommand, "connections")?)?;
    let path = value(subcommand, "db");
    let day = value(subcommand, "day");
    Some(ServeWords {
        port,
        connections,
        path,
        day,
    })
}

/// The number that a text is, if it is one from 1 to `most`.
fn number_up_to(most: u32, text: &str) -> Option<u32>
    ensures some { IfSome result (λ number. IsNumberUpTo most text.now number) }
    ensures none { is_none result ≡ true → (number : ℕ) → IsNumberUpTo most text.now number → ⊥ }
{
    match text.parse::<u32>() {
        Ok(number) => {
            if 1 <= number && number <= most {
                return Some(number);
            }
            None
        }
        Err(_) => None,
    }
}
