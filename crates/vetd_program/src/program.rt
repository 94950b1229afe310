//! The program's commands: one run, and one table.
ghost use Rattle.std.specs.Prelude.{◌≡◌, ◌≢◌, ◌+◌, Err, map};
ghost use Rattle.std.specs.Io.KnownBytes.{Keeps};
ghost use Rattle.vet_base.specs.declared.limits.TheConstants.{MOST_READS};
ghost use Rattle.vet_requests.specs.Input.{TakesAtMost, heard};
ghost use Rattle.vetd_program.specs.Program.{AnswersAs, AsksNoInput, AsksNothing, IsUntoldAs, command_of};
ghost use Rattle.vetd_program.specs.Serving.{clients_of};
ghost use Rattle.vetd_commands.specs.Making.{FoundBy, GivenBy};
ghost use Rattle.vetd_words.specs.Answer.{IsWritten};
ghost use Rattle.vetd_words.specs.declared.asked.CommandKind.{CommandKind as CommandKindValue};
ghost use Rattle.vetd_words.specs.Words.{AskForHelp, AskForNoHelp};

use crate::clients::network::Network;
use crate::serve_run::serve_run;
use sqlite::Alter;
use std::alloc::Global;
use std::convert::AsStr;
use std::io::{Read, Write};
use vet_base::limits::MOST_INPUT_BYTES;
use vet_graph::keeper::Keeper;
use vet_requests::input::CountedReader;
use vet_requests::io_fault::IoFault;
use vetd_commands::applying::apply_run;
use vetd_commands::databases::{DatabaseRun, Databases};
use vetd_commands::making::new_run;
use vetd_commands::viewing::view_run;
use vetd_words::asked::CommandKind;
use vetd_words::run::command_run;
use vetd_words::view_words::ViewCommand;
use vetd_words::words::begin_with;

/// A command of the program that the words of a whole command line are to be. A new one needs a row here, or in the
/// table of its sort; a row in `of_words` and `run_as`; and the function that answers it.
#[derive(Clone, Copy)]
pub enum ProgramCommand {
    File(CommandKind),
    New,
    Apply,
    Show(ViewCommand),
    Serve,
}

impl ProgramCommand {
    /// The command that words are to be, by the first of them. Words that begin with no command are taken as `class`,
    /// so that they are explained.
    pub fn of_words<S: AsStr>(words: &[S]) -> ProgramCommand
        ensures { result ≡ command_of (map S.text words.now) }
    {
        if begin_with(words, "read") {
            ProgramCommand::File(CommandKind::Read)
        } else if begin_with(words, "new") {
            ProgramCommand::New
        } else if begin_with(words, "apply") {
            ProgramCommand::Apply
        } else if begin_with(words, "report") {
            ProgramCommand::Show(ViewCommand::Report)
        } else if begin_with(words, "export") {
            ProgramCommand::Show(ViewCommand::Export)
        } else if begin_with(words, "serve") {
            ProgramCommand::Serve
        } else {
            ProgramCommand::File(CommandKind::Class)
        }
    }
}

/// Answers the words of a command, which come without the program's own name, from the input that the reader gives and
/// the database at their path. The command is the one that the first word names. The answer goes to `writer`, as do
/// help and the version, and a refusal or clap's error to `errors`.
///
/// **If a status is returned, the whole answer to the words, the input and the tables was written. A run that ends with
/// a fault wrote nothing or, if a write failed, a prefix of that answer. With `serve` the answer depends on the clients
/// of `network` too.** Faults: `Input`, `Endless` and `NoMemory` if nothing was printed, and `Output` if a prefix of
/// the answer was.
pub fn program_run<
    T: AsStr,
    S: Alter + Drop,
    K: Keeper,
    D: Databases<S>,
    N: Network,
    R: Read,
    W: Write,
    E: Write,
>(
    alloc: Global,
    words: &[T],
    network: &mut N,
    reader: &mut CountedReader<R>,
    databases: &mut D,
    writer: &mut W,
    errors: &mut E,
) -> DatabaseRun<S>
    ensures written { IsWritten
        (AnswersAs S.Store (GivenBy (D.may_give databases.old)) (FoundBy (D.may_find databases.old))
        (clients_of N.may_listen N.may_come N.may_release N.may_close N.Reader.remaining N.Writer.Write.contents)
        network.old network.new
        (heard R.remaining reader.old) (heard R.remaining reader.new)
        (map T.text words.now) result.conn (command_of (map T.text words.now)))
        (IsUntoldAs S.Store (GivenBy (D.may_give databases.old)) (FoundBy (D.may_find databases.old))
        (clients_of N.may_listen N.may_come N.may_release N.may_close N.Reader.remaining N.Writer.Write.contents)
        network.old network.new
        (heard R.remaining reader.old) (heard R.remaining reader.new)
        (map T.text words.now) result.conn (command_of (map T.text words.now)))
        result.status (W.contents writer.old) (W.contents writer.new)
        (E.contents errors.old) (E.contents errors.new) }

    // No more is read, and nothing if the words ask for none of the input. `Endless` is returned only once all reads
    // are made.
    ensures bounded { TakesAtMost (MOST_INPUT_BYTES + 1)
        (heard R.remaining reader.old) (heard R.remaining reader.new) }
    ensures unread { AsksNoInput (command_of (map T.text words.now)) (map T.text words.now) → reader.new ≡ reader.old }
    ensures endless { result.status ≡ Err IoFault.Endless → reader.new.made ≡ MOST_READS }

    // Only `serve` uses the network, and `class` and `read` use no database.
    ensures alone { command_of (map T.text words.now) ≢ ProgramCommand.Serve → network.new ≡ network.old }
    ensures unopened { (kind : CommandKindValue) → command_of (map T.text words.now) ≡ ProgramCommand.File kind
        → databases.new ≡ databases.old }

    // Help and the version go to the output, and a fault of the words to the errors.
    ensures help { AskForHelp (map T.text words.now) → Keeps (E.contents errors.old) (E.contents errors.new) }
    ensures wrong { AsksNothing (command_of (map T.text words.now)) (map T.text words.now)
        → AskForNoHelp (map T.text words.now) → Keeps (W.contents writer.old) (W.contents writer.new) }
{
    let command = ProgramCommand::of_words(words);
    run_as::<T, S, K, D, N, R, W, E>(
        alloc, command, words, network, reader, databases, writer, errors,
    )
}

/// Answers the words as those of a command.
fn run_as<
    T: AsStr,
    S: Alter + Drop,
    K: Keeper,
    D: Databases<S>,
    N: Network,
    R: Read,
    W: Write,
    E: Write,
>(
    alloc: Global,
    command: ProgramCommand,
    words: &[T],
    network: &mut N,
    reader: &mut CountedReader<R>,
    databases: &mut D,
    writer: &mut W,
    errors: &mut E,
) -> DatabaseRun<S>
    ensures written { IsWritten
        (AnswersAs S.Store (GivenBy (D.may_give databases.old)) (FoundBy (D.may_find databases.old))
        (clients_of N.may_listen N.may_come N.may_release N.may_close N.Reader.remaining N.Writer.Write.contents)
        network.old network.new
        (heard R.remaining reader.old) (heard R.remaining reader.new)
        (map T.text words.now) result.conn command)
        (IsUntoldAs S.Store (GivenBy (D.may_give databases.old)) (FoundBy (D.may_find databases.old))
        (clients_of N.may_listen N.may_come N.may_release N.may_close N.Reader.remaining N.Writer.Write.contents)
        network.old network.new
        (heard R.remaining reader.old) (heard R.remaining reader.new)
        (map T.text words.now) result.conn command)
        result.status (W.contents writer.old) (W.contents writer.new)
        (E.contents errors.old) (E.contents errors.new) }

    // No more is read, and nothing if the words ask for none of the input. `Endless` is returned only once all reads
    // are made.
    ensures bounded { TakesAtMost (MOST_INPUT_BYTES + 1)
        (heard R.remaining reader.old) (heard R.remaining reader.new) }
    ensures unread { AsksNoInput command (map T.text words.now) → reader.new ≡ reader.old }
    ensures endless { result.status ≡ Err IoFault.Endless → reader.new.made ≡ MOST_READS }

    // Only `serve` uses the network, and `class` and `read` use no database.
    ensures alone { command ≢ ProgramCommand.Serve → network.new ≡ network.old }
    ensures unopened { (kind : CommandKindValue) → command ≡ ProgramCommand.File kind
        → databases.new ≡ databases.old }

    // Help and the version go to the output, and a fault of the words to the errors.
    ensures help { AskForHelp (map T.text words.now) → Keeps (E.contents errors.old) (E.contents errors.new) }
    ensures wrong { AsksNothing command (map T.text words.now)
        → AskForNoHelp (map T.text words.now) → Keeps (W.contents writer.old) (W.contents writer.new) }
{
    match command {
        ProgramCommand::File(kind) => DatabaseRun {
            status: command_run(alloc, kind, words, reader, writer, errors),
            conn: None,
        },
        ProgramCommand::New => new_run::<T, S, K, D, W, E>(alloc, words, databases, writer, errors),
        ProgramCommand::Apply => {
            apply_run::<T, S, K, D, R, W, E>(alloc, words, reader, databases, writer, errors)
        }
        ProgramCommand::Show(kind) => {
            view_run::<T, S, K, D, W, E>(alloc, kind, words, databases, writer, errors)
        }
        ProgramCommand::Serve => {
            serve_run::<T, S, K, D, N, W, E>(alloc, words, network, databases, writer, errors)
        }
    }
}
