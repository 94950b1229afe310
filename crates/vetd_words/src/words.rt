//! The command line, as clap parses it.
ghost use Rattle.std.specs.Prelude.{◌≡◌, ◌≢◌, [], IfOk, IfErr, codes, false, map, option_and_then, option_map, true};
ghost use Rattle.clap.specs.Words.{App, Rule, first_of, found_of, kind_of, rows_of, with_rule};
ghost use Rattle.clap.specs.Words.{subcommand_rows_of, Text};
ghost use Rattle.vetd_words.specs.ApplyWords.{apply_app};
ghost use Rattle.vetd_words.specs.NewWords.{limit_rule, new_app, option_rule};
ghost use Rattle.vetd_words.specs.ServeWords.{number_rule, serve_app};
ghost use Rattle.vetd_words.specs.Words.{IsApp, IsErrorOf, IsRule, asked_of, bare_app, begins_with, class_alone_app};
ghost use Rattle.vetd_words.specs.Words.{changed_app, class_app, class_given, exported_app, faults_of, file_app};
ghost use Rattle.vetd_words.specs.Words.{kind_from, kind_word};
ghost use Rattle.vetd_words.specs.Words.{made_app, read_app, read_given, reported_app, rows_given, rows_if_named};
ghost use Rattle.vetd_words.specs.Words.{top_app, view_app, with_kind, word_rule, words_from};

use crate::file_word::{FILE_WORDS, file_of_word};
use crate::help::{
    APPLY_HELP, CLASS_HELP, EXPORT_HELP, NEW_HELP, PROGRAM_HELP, READ_HELP, REPORT_HELP,
    SERVE_HELP, VERSION,
};
use crate::serve_words::{LAST_PORT, MOST_CONNECTIONS};
use crate::surplus::surplus_word;
use clap::builder::ValueParser;
use clap::error::ErrorKind;
use clap::{Arg, ArgMatches, Command, Error};
use std::alloc::{AllocError, Global};
use std::convert::AsStr;
use vet_documents::register_file::RegisterFile;

/// The three words of a class command.
#[derive(Clone, Copy)]
pub struct ClassWords<'a> {
    pub package_name: &'a str,
    pub version: &'a str,
    pub criterion: &'a str,
}

/// Parses the words of a class command, which come without the program's own name. Refused: clap's error for words that
/// are not a command line or ask for help, an error for words that are another command, and `OutOfMemory`.
pub fn class_words<'a, S: AsStr>(alloc: Global, words: &'a [S]) -> Result<ClassWords<'a>, Error>
    ensures found { IfOk result (λ asked. class_given (map S.text words.entry.now) ≡ Some (asked_of asked)) }
    ensures refused { IfErr result (λ error. kind_of error ≢ ErrorKind.OutOfMemory
        → class_given (map S.text words.entry.now) ≡ None) }
    ensures clean { IfOk result (λ _. faults_of (map S.text words.entry.now) ≡ []) }
    ensures kinds { IfErr result (λ error. IsErrorOf (map S.text words.entry.now) (kind_of error)) }
{
    let matches = matches_of(alloc, words)?;
    match class_asked(&matches) {
        Some(asked) => Ok(asked),
        None => Err(words_error(
            alloc,
            ErrorKind::MissingSubcommand,
            "no class was asked for",
        )?),
    }
}

/// The kind of file that the words of a read command name, which come without the program's own name. Refused: clap's
/// error for words that are not a command line or ask for help, an error for words that are another command or name no
/// kind, and `OutOfMemory`.
pub fn read_words<S: AsStr>(alloc: Global, words: &[S]) -> Result<RegisterFile, Error>
    ensures found { IfOk result (λ kind. read_given (map S.text words.now) ≡ Some kind) }
    ensures refused { IfErr result (λ error. kind_of error ≢ ErrorKind.OutOfMemory
        → read_given (map S.text words.now) ≡ None) }
    ensures clean { IfOk result (λ _. faults_of (map S.text words.now) ≡ []) }
    ensures kinds { IfErr result (λ error. IsErrorOf (map S.text words.now) (kind_of error)) }
{
    let matches = matches_of(alloc, words)?;
    match kind_asked(&matches) {
        Some(kind) => Ok(kind),
        None => Err(no_kind(alloc, &matches)?),
    }
}

/// The error for a word that is no kind of file, which it names, or for words that are another command.
fn no_kind(alloc: Global, matches: &ArgMatches<'_>) -> Result<Error, AllocError>
    ensures { IfOk result (λ error. kind_of error ≡ ErrorKind.InvalidValue) }
{
    let word = kind_word(matches).unwrap_or("");
    let command = read_command(alloc)?.bin_name("vetd read")?;
    invalid_kind(alloc, command, word, FILE_WORDS)
}

/// The error for a word for KIND that the command doesn't take, in clap's form: with the words that it takes, and its
/// usage.
pub(crate) fn invalid_kind(
    alloc: Global,
    command: Command<'_>,
    word: &str,
    kinds: &str,
) -> Result<Error, AllocError>
    ensures { IfOk result (λ error. kind_of error ≡ ErrorKind.InvalidValue) }
{
    let mut command = command;
    let message = format!(in alloc;
        "invalid value '{word}' for '<KIND>'\n  [possible values: {kinds}]"
    )?;
    command.error(ErrorKind::InvalidValue, message.as_str())
}

/// The word for KIND, if the words are a read command.
fn kind_word<'a>(matches: &ArgMatches<'a>) -> Option<&'a str>
    ensures { option_map (λ s. s.now) result ≡ kind_word (codes "read") (subcommand_rows_of matches.now) }
{
    value(matches_if_named(matches, "read")?, "KIND")
}

/// Whether the words begin with the name of a command.
pub fn begin_with<S: AsStr>(words: &[S], name: &str) -> bool
    ensures { result ≡ begins_with name.now (map S.text words.now) }
{
    match words.first() {
        Some(word) => word.as_str() == name,
        None => false,
    }
}

/// The error for words that are not text.
pub fn not_text(alloc: Global) -> Result<Error, AllocError>
    ensures { IfOk result (λ error. kind_of error ≡ ErrorKind.Format) }
{
    words_error(
        alloc,
        ErrorKind::Format,
        "invalid UTF-8 was detected in one or more arguments",
    )
}

/// An error of the program's command line, in the form of clap's own.
pub(crate) fn words_error(
    alloc: Global,
    kind: ErrorKind,
    message: &str,
) -> Result<Error, AllocError>
    ensures { IfOk result (λ error. kind_of error ≡ kind) }
{
    top_command(alloc)?.error(kind, message)
}

/// The words as clap parses them. If there is an extra word, the error says how a file is given.
pub(crate) fn matches_of<'a, S: AsStr>(
    alloc: Global,
    words: &'a [S],
) -> Result<ArgMatches<'a>, Error>
    ensures found { IfOk result (λ matches. (name : Text) → rows_given name (map S.text words.entry.now)
        ≡ rows_if_named name (subcommand_rows_of matches)) }
    ensures refused { IfErr result (λ error. kind_of error ≢ ErrorKind.OutOfMemory
        → (name : Text) → rows_given name (map S.text words.entry.now) ≡ None) }
    ensures clean { IfOk result (λ _. faults_of (map S.text words.entry.now) ≡ []) }
    ensures kinds { IfErr result (λ error. IsErrorOf (map S.text words.entry.now) (kind_of error)) }
{
    match matches_by_clap(alloc, words) {
        Ok(matches) => Ok(matches),
        Err(error) => Err(hinted(alloc, words, error)?),
    }
}

/// The words as clap parses them, with clap's own error.
fn matches_by_clap<'a, S: AsStr>(alloc: Global, words: &'a [S]) -> Result<ArgMatches<'a>, Error>
    ensures found { IfOk result (λ matches. (name : Text) → rows_given name (map S.text words.entry.now)
        ≡ rows_if_named name (subcommand_rows_of matches)) }
    ensures refused { IfErr result (λ error. kind_of error ≢ ErrorKind.OutOfMemory
        → (name : Text) → rows_given name (map S.text words.entry.now) ≡ None) }
    ensures clean { IfOk result (λ _. faults_of (map S.text words.entry.now) ≡ []) }
    ensures kinds { IfErr result (λ error. IsErrorOf (map S.text words.entry.now) (kind_of error)) }
{
    top_command(alloc)?.try_get_matches_from(words)
}

/// The error or, if its cause is an extra word, one of the same kind that says how a file is given.
fn hinted<S: AsStr>(alloc: Global, words: &[S], error: Error) -> Result<Error, AllocError>
    ensures { IfOk result (λ e. kind_of e ≡ kind_of error) }
{
    if error.kind() != ErrorKind::UnknownArgument {
        return Ok(error);
    }
    match surplus_word(words) {
        Some(word) => {
            let message = format!(in alloc;
                "'{word}' is a word too many: the file comes on standard input, by < FILE"
            )?;
            words_error(alloc, ErrorKind::UnknownArgument, message.as_str())
        }
        None => Ok(error),
    }
}

/// The program's command line.
fn top_command<'a>(alloc: Global) -> Result<Command<'a>, AllocError>
    ensures { IfOk result (IsApp top_app) }
{
    let serve = serve_command(alloc)?;
    exported_commands(alloc)?.subcommand(serve)
}

/// The command line before the last subcommand.
fn exported_commands<'a>(alloc: Global) -> Result<Command<'a>, AllocError>
    ensures { IfOk result (IsApp exported_app) }
{
    let export = export_command(alloc)?;
    reported_commands(alloc)?.subcommand(export)
}

/// The command line with the subcommands that read a file, make a register, change one or report on one.
fn reported_commands<'a>(alloc: Global) -> Result<Command<'a>, AllocError>
    ensures { IfOk result (IsApp reported_app) }
{
    let report = report_command(alloc)?;
    changed_commands(alloc)?.subcommand(report)
}

/// The command line with the subcommands that read a file, make a register or change one.
fn changed_commands<'a>(alloc: Global) -> Result<Command<'a>, AllocError>
    ensures { IfOk result (IsApp changed_app) }
{
    let apply = apply_command(alloc)?;
    made_commands(alloc)?.subcommand(apply)
}

/// The command line with the subcommands that read a file, and the one that makes a register.
fn made_commands<'a>(alloc: Global) -> Result<Command<'a>, AllocError>
    ensures { IfOk result (IsApp made_app) }
{
    let new = new_command(alloc)?;
    file_commands(alloc)?.subcommand(new)
}

/// The command line with the subcommands that read a file.
fn file_commands<'a>(alloc: Global) -> Result<Command<'a>, AllocError>
    ensures { IfOk result (IsApp file_app) }
{
    let read = read_command(alloc)?;
    class_alone(alloc)?.subcommand(read)
}

/// The command line with its first subcommand, apart from the second: so nothing fails behind two commands.
fn class_alone<'a>(alloc: Global) -> Result<Command<'a>, AllocError>
    ensures { IfOk result (IsApp class_alone_app) }
{
    let class = class_command(alloc)?;
    bare_command(alloc)?.subcommand(class)
}

/// The command line before its subcommands.
fn bare_command<'a>(alloc: Global) -> Result<Command<'a>, AllocError>
    ensures { IfOk result (IsApp bare_app) }
{
    Command::new(alloc, "vetd")
        .about("Audits of third-party packages")
        .after_help(PROGRAM_HELP)
        .version(VERSION)
        .no_binary_name(true)
        .subcommand_required(true)
        .bin_name("vetd")
}

fn class_command<'a>(alloc: Global) -> Result<Command<'a>, AllocError>
    ensures { IfOk result (IsApp class_app) }
{
    let command = Command::new(alloc, "class")
        .about("Prints the class that the audits file on standard input gives")
        .after_help(CLASS_HELP);
    let command = add(command, word(alloc, "PACKAGE", "The package's name"))?;
    let command = add(
        command,
        word(alloc, "VERSION", "The version of the package"),
    )?;
    add(
        command,
        word(alloc, "CRITERION", "The criterion that is asked for"),
    )
}

fn read_command<'a>(alloc: Global) -> Result<Command<'a>, AllocError>
    ensures { IfOk result (IsApp read_app) }
{
    let command = Command::new(alloc, "read")
        .about("Counts what the file on standard input holds")
        .after_help(READ_HELP);
    add(
        command,
        word(
            alloc,
            "KIND",
            "The kind of the file: audits, config or imports",
        ),
    )
}

fn new_command<'a>(alloc: Global) -> Result<Command<'a>, AllocError>
    ensures { IfOk result (IsApp new_app) }
{
    let command = Command::new(alloc, "new")
        .about("Makes a register in a database file")
        .after_help(NEW_HELP);
    let command = add(command, path_option(alloc, true))?;
    add(command, limit_option(alloc))
}

fn apply_command<'a>(alloc: Global) -> Result<Command<'a>, AllocError>
    ensures { IfOk result (IsApp apply_app) }
{
    let command = Command::new(alloc, "apply")
        .about("Changes the register in a database file by the command document on standard input")
        .after_help(APPLY_HELP);
    let command = add(command, path_option(alloc, true))?;
    let command = add(command, day_option(alloc, true))?;
    add(command, member_option(alloc))
}

pub(crate) fn report_command<'a>(alloc: Global) -> Result<Command<'a>, AllocError>
    ensures { IfOk result (IsApp (view_app (codes "report"))) }
{
    let command = Command::new(alloc, "report")
        .about("Prints what the register in a database file holds")
        .after_help(REPORT_HELP);
    with_kind(
        alloc,
        command,
        "The report: counts, standing, standing-csv, moves, desk or lapses",
    )
}

pub(crate) fn export_command<'a>(alloc: Global) -> Result<Command<'a>, AllocError>
    ensures { IfOk result (IsApp (view_app (codes "export"))) }
{
    let command = Command::new(alloc, "export")
        .about("Prints a file of the register in a database file")
        .after_help(EXPORT_HELP);
    with_kind(
        alloc,
        command,
        "The kind of the file: audits, config or imports",
    )
}

fn serve_command<'a>(alloc: Global) -> Result<Command<'a>, AllocError>
    ensures { IfOk result (IsApp serve_app) }
{
    let command = Command::new(alloc, "serve")
        .about("Serves a register over HTTP on the loopback")
        .after_help(SERVE_HELP);
    let command = add(command, port_option(alloc))?;
    let command = add(command, connections_option(alloc))?;
    let command = add(command, path_option(alloc, false))?;
    add(command, day_option(alloc, false))
}

/// The command with the path of a register, and the kind of text that it prints.
fn with_kind<'a>(
    alloc: Global,
    command: Command<'a>,
    help: &'a str,
) -> Result<Command<'a>, AllocError>
    ensures { (app : App) → IsApp app command.entry → IfOk result (IsApp (with_kind app)) }
{
    let command = add(command, path_option(alloc, true))?;
    add(command, word(alloc, "KIND", help))
}

/// `--db PATH`.
fn path_option<'a>(alloc: Global, required: bool) -> Arg<'a>
    ensures { IsRule (option_rule required (codes "db")) result }
{
    Arg::new(alloc, "db")
        .long("db")
        .value_name("PATH")
        .required(required)
        .help("Where the database file stands, or is to stand")
}

/// `--day D`.
fn day_option<'a>(alloc: Global, required: bool) -> Arg<'a>
    ensures { IsRule (option_rule required (codes "day")) result }
{
    Arg::new(alloc, "day")
        .long("day")
        .value_name("D")
        .required(required)
        .help("The day of the command, as 2024-05-01")
}

/// `--port N`, which is required.
fn port_option<'a>(alloc: Global) -> Arg<'a>
    ensures { IsRule (number_rule 65535 (codes "port")) result }
{
    Arg::new(alloc, "port")
        .long("port")
        .value_name("N")
        .required(true)
        .value_parser(ValueParser::Unsigned(1, LAST_PORT as u64))
        .help("The port of 127.0.0.1 at which clients connect")
}

/// `--connections K`, which is required.
fn connections_option<'a>(alloc: Global) -> Arg<'a>
    ensures { IsRule (number_rule 1000000 (codes "connections")) result }
{
    Arg::new(alloc, "connections")
        .long("connections")
        .value_name("K")
        .required(true)
        .value_parser(ValueParser::Unsigned(1, MOST_CONNECTIONS as u64))
        .help("How many connections are waited for before the program ends")
}

/// `--member M`.
fn member_option<'a>(alloc: Global) -> Arg<'a>
    ensures { IsRule (option_rule false (codes "member")) result }
{
    Arg::new(alloc, "member")
        .long("member")
        .value_name("M")
        .help("The member who gives the command")
}

/// `--moves-limit N`.
fn limit_option<'a>(alloc: Global) -> Arg<'a>
    ensures { IsRule limit_rule result }
{
    Arg::new(alloc, "moves-limit")
        .long("moves-limit")
        .value_name("N")
        .value_parser(ValueParser::Unsigned(1, 1_000_000))
        .default_value("1000000")
        .help("How many moves a period may record")
}

/// A required word.
fn word<'a>(alloc: Global, id: &'a str, help: &'a str) -> Arg<'a>
    ensures { IsRule (word_rule id.entry.now) result }
{
    Arg::new(alloc, id).required(true).help(help)
}

/// The command with one more argument.
fn add<'a>(command: Command<'a>, arg: Arg<'a>) -> Result<Command<'a>, AllocError>
    ensures { (app : App) (rule : Rule) → IsApp app command.entry → IsRule rule arg.entry
        → IfOk result (IsApp (with_rule app rule)) }
{
    command.arg(arg)
}

/// The words of a class command, if the command is one.
fn class_asked<'a>(matches: &ArgMatches<'a>) -> Option<ClassWords<'a>>
    ensures { option_map asked_of result
        ≡ option_and_then words_from (rows_if_named (codes "class") (subcommand_rows_of matches.now)) }
{
    words_of(matches_if_named(matches, "class")?)
}

/// The kind that a read command names, if the command is one.
fn kind_asked(matches: &ArgMatches<'_>) -> Option<RegisterFile>
    ensures { result
        ≡ option_and_then kind_from (rows_if_named (codes "read") (subcommand_rows_of matches.now)) }
{
    kind_of_file(matches_if_named(matches, "read")?)
}

/// The matches of the subcommand, if it is the one of this name.
pub(crate) fn matches_if_named<'m, 'a>(
    matches: &'m ArgMatches<'a>,
    name: &str,
) -> Option<&'m ArgMatches<'a>>
    ensures { option_map (λ m. rows_of (found_of m.now)) result
        ≡ rows_if_named name.now (subcommand_rows_of matches.now) }
{
    let (met, subcommand) = matches.subcommand()?;
    if met == name { Some(subcommand) } else { None }
}

/// The three words of a class command.
fn words_of<'a>(subcommand: &ArgMatches<'a>) -> Option<ClassWords<'a>>
    ensures { option_map asked_of result ≡ words_from (rows_of (found_of subcommand.now)) }
{
    let package_name = value(subcommand, "PACKAGE")?;
    let version = value(subcommand, "VERSION")?;
    let criterion = value(subcommand, "CRITERION")?;
    Some(ClassWords {
        package_name,
        version,
        criterion,
    })
}

/// The kind of file that a read command names.
fn kind_of_file(subcommand: &ArgMatches<'_>) -> Option<RegisterFile>
    ensures { result ≡ kind_from (rows_of (found_of subcommand.now)) }
{
    file_of_word(value(subcommand, "KIND")?)
}

/// The value of an argument, if it is given.
pub(crate) fn value<'a>(subcommand: &ArgMatches<'a>, id: &str) -> Option<&'a str>
    ensures { option_map (λ s. s.now) result ≡ first_of id.now (rows_of (found_of subcommand.now)) }
{
    subcommand.get_str(id)
}
