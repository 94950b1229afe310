//! The commands that print a text of a register in a database.
ghost use Rattle.std.specs.Prelude.{◌≡◌, ◌≢◌, IfErr, IfOk, None, false, map, string_bytes};
ghost use Rattle.std.specs.Io.KnownBytes.{Keeps};
ghost use Rattle.vetd_words.specs.Answer.{IsWritten, answer_for};
ghost use Rattle.vetd_words.specs.ViewWords.{view_asked, view_given};
ghost use Rattle.vetd_words.specs.Words.{AskForHelp, AskForNoHelp};
ghost use Rattle.vetd_commands.specs.Making.{FoundBy};
ghost use Rattle.vetd_commands.specs.Viewing.{AnswersView, IsNotShown, IsShown, IsUntold, IsViewFor};

use crate::databases::{DatabaseRun, Databases};
use sqlite::{Alter, Connection};
use std::alloc::Global;
use std::convert::AsStr;
use std::io::Write;
use vet_base::refusal::Refusal;
use vet_graph::keeper::Keeper;
use vet_requests::io_fault::IoFault;
use vet_store::store::Store;
use vetd_words::answer::{explain, report};
use vetd_words::view::View;
use vetd_words::view_words::{ViewCommand, ViewWords, view_words};

/// Answers the words of a command that prints a text of a register, which come without the program's own name. The text
/// goes to `writer`, as do help and the version, and a refusal or clap's error to `errors`.
///
/// **The printed text shows the one register whose rows are in the tables of the database at the path. Tables of the
/// first version are taken over; otherwise nothing is written there.** Refusals that the user reads: `NotARegister` if
/// there is no file at the path, if the tables have the rows of no register, or if they are of the first version and a
/// name that only the second has is taken; `StoreRefused` if no database can be opened or read there. Faults:
/// `NoMemory` if nothing was printed, and `Output` if a prefix of the answer was.
pub fn view_run<T: AsStr, S: Alter + Drop, K: Keeper, D: Databases<S>, W: Write, E: Write>(
    alloc: Global,
    command: ViewCommand,
    words: &[T],
    databases: &mut D,
    writer: &mut W,
    errors: &mut E,
) -> DatabaseRun<S>
    ensures written { IsWritten
        (AnswersView S.Store (FoundBy (D.may_find databases.old)) (view_given command (map T.text words.now))
        result.conn)
        (IsUntold S.Store (FoundBy (D.may_find databases.old)) (view_given command (map T.text words.now)) result.conn)
        result.status (W.contents writer.old) (W.contents writer.new)
        (E.contents errors.old) (E.contents errors.new) }
    ensures faults { IfErr result.status (λ fault. (fault ≢ IoFault.Input) × (fault ≢ IoFault.Endless)) }

    // Help and the version go to the output, and a fault of the words to the errors.
    ensures help { AskForHelp (map T.text words.now) → Keeps (E.contents errors.old) (E.contents errors.new) }
    ensures wrong { view_given command (map T.text words.now) ≡ None
        → AskForNoHelp (map T.text words.now) → Keeps (W.contents writer.old) (W.contents writer.new) }
{
    match view_words(alloc, command, words) {
        Ok(asked) => {
            let (told, conn) = view_at::<S, K, D>(alloc, databases, asked);
            let status = report(alloc, &told, writer, errors);
            DatabaseRun { status, conn }
        }
        Err(error) => DatabaseRun {
            status: explain(alloc, &error, writer, errors),
            conn: None,
        },
    }
}

/// The text of the register at a path, and the connection, if there is one.
fn view_at<S: Alter + Drop, K: Keeper, D: Databases<S>>(
    alloc: Global,
    databases: &mut D,
    asked: ViewWords<'_>,
) -> (Result<String, Refusal>, Option<Connection<S>>)
    ensures { IsViewFor S.Store (FoundBy (D.may_find databases.old)) (view_asked asked.entry)
        (answer_for string_bytes result.0) result.1 }
{
    match databases.find(asked.path) {
        Ok(conn) => {
            let (shown, conn) = shown::<S, K>(alloc, conn, asked.view);
            (shown, Some(conn))
        }
        Err(refusal) => (Err(refusal), None),
    }
}

/// The text of the register in the tables of a connection, and the connection.
fn shown<S: Alter + Drop, K: Keeper>(
    alloc: Global,
    conn: Connection<S>,
    view: View,
) -> (Result<String, Refusal>, Connection<S>)
    requires { conn.in_transaction ≡ false }
    ensures shown { IfOk result.0 (λ text. IsShown S.Store conn view (string_bytes text) result.1) }
    ensures refused { IfErr result.0 (λ refusal. IsNotShown S.Store conn refusal result.1) }
{
    match Store::<S, K>::open(alloc, conn) {
        Ok(store) => {
            let shown = view.text(alloc, store.register());
            (shown, store.close())
        }
        Err(refused) => {
            let (refusal, conn) = refused.into_parts();
            (Err(refusal), conn)
        }
    }
}
