//! The new command, which makes a register in a database.
ghost use Rattle.std.specs.Prelude.{◌≡◌, ◌≢◌, ◌<◌, ◌≤◌, IfErr, IfOk, OnOk, false, map, string_bytes};
ghost use Rattle.std.specs.Io.KnownBytes.{Keeps};
ghost use Rattle.vetd_commands.specs.Making.{AnswersNew, IsAnswerFor, IsNewRegister, IsNoRegister, IsUnmade};
ghost use Rattle.vetd_commands.specs.Making.{GivenBy, created_line};
ghost use Rattle.vetd_words.specs.Answer.{IsWritten, answer_for};
ghost use Rattle.vetd_words.specs.NewAsked.{AsksNew, NewAsked, new_asked};
ghost use Rattle.vetd_words.specs.Words.{AskForHelp, AskForNoHelp};

use crate::databases::{DatabaseRun, Databases};
use sqlite::{Alter, Connection};
use std::alloc::{AllocError, Global};
use std::convert::AsStr;
use std::io::Write;
use vet_base::limits::MOST_MOVES;
use vet_base::refusal::Refusal;
use vet_graph::keeper::Keeper;
use vet_requests::io_fault::IoFault;
use vet_store::store::Store;
use vetd_words::answer::{explain, report};
use vetd_words::new_words::{NewWords, new_words};

/// Answers the words of a new command, which come without the program's own name: makes a register in the database at
/// their path. `created` goes to `writer`, as do help and the version, and a refusal or clap's error to `errors`.
///
/// **If it prints `created`, the register is in the tables, and outlasts a crash. After a refusal, or if memory ran
/// out, the database holds what it held before.** Refusals that the user reads: `StoreRefused` if no database can be
/// opened or written there, and `NotARegister` if a table, an index or a view has a name of the register's tables.
/// Faults: `NoMemory` if nothing was printed, and `Output` if a prefix of the answer was.
pub fn new_run<T: AsStr, S: Alter + Drop, K: Keeper, D: Databases<S>, W: Write, E: Write>(
    alloc: Global,
    words: &[T],
    databases: &mut D,
    writer: &mut W,
    errors: &mut E,
) -> DatabaseRun<S>
    ensures written { IsWritten
        (AnswersNew S.Store (GivenBy (D.may_give databases.old)) (map T.text words.now) result.conn)
        (IsUnmade S.Store (GivenBy (D.may_give databases.old)) (map T.text words.now) result.conn)
        result.status (W.contents writer.old) (W.contents writer.new)
        (E.contents errors.old) (E.contents errors.new) }
    ensures faults { IfErr result.status (λ fault. (fault ≢ IoFault.Input) × (fault ≢ IoFault.Endless)) }

    // Help and the version go to the output, and a fault of the words to the errors.
    ensures help { AskForHelp (map T.text words.now) → Keeps (E.contents errors.old) (E.contents errors.new) }
    ensures wrong { ((asked : NewAsked) → AsksNew (map T.text words.now) asked → ⊥)
        → AskForNoHelp (map T.text words.now) → Keeps (W.contents writer.old) (W.contents writer.new) }
{
    match new_words(alloc, words) {
        Ok(asked) => {
            let (told, conn) = make_at::<S, K, D>(alloc, databases, asked);
            let status = report(alloc, &told, writer, errors);
            DatabaseRun { status, conn }
        }
        Err(error) => DatabaseRun {
            status: explain(alloc, &error, writer, errors),
            conn: None,
        },
    }
}

/// Makes a register at a path, and returns the line that says so and the connection, if there is one.
fn make_at<S: Alter + Drop, K: Keeper, D: Databases<S>>(
    alloc: Global,
    databases: &mut D,
    asked: NewWords<'_>,
) -> (Result<String, Refusal>, Option<Connection<S>>)
    requires { (0 < asked.moves_limit) × (asked.moves_limit ≤ MOST_MOVES) }
    ensures { IsAnswerFor S.Store (GivenBy (D.may_give databases.old)) (new_asked asked.entry)
        (answer_for string_bytes result.0) result.1 }
{
    let text = match created(alloc) {
        Ok(text) => text,
        Err(_) => return (Err(Refusal::NoMemory), None),
    };
    match databases.connect(asked.path) {
        Ok(conn) => {
            let (made, conn) = make::<S, K>(alloc, conn, asked.moves_limit);
            (told(made, text), Some(conn))
        }
        Err(refusal) => (Err(refusal), None),
    }
}

/// The line that says that a register was made.
fn created(alloc: Global) -> Result<String, AllocError>
    ensures { IfOk result (λ text. string_bytes text ≡ created_line) }
{
    String::from_str(alloc, "created\n")
}

/// The text, unless there is a refusal.
fn told(made: Result<(), Refusal>, text: String) -> Result<String, Refusal>
    ensures made { OnOk made (result ≡ Ok text) }
    ensures refused { IfErr made (λ refusal. result ≡ Err refusal) }
{
    match made {
        Ok(()) => Ok(text),
        Err(refusal) => Err(refusal),
    }
}

/// Makes a register in the database of a connection, and returns the connection.
fn make<S: Alter + Drop, K: Keeper>(
    alloc: Global,
    conn: Connection<S>,
    moves_limit: usize,
) -> (Result<(), Refusal>, Connection<S>)
    requires limit { (0 < moves_limit) × (moves_limit ≤ MOST_MOVES) }
    requires outside { conn.in_transaction ≡ false }
    ensures made { OnOk result.0 (IsNewRegister S.Store moves_limit conn result.1) }
    ensures refused { IfErr result.0 (λ refusal. IsNoRegister S.Store moves_limit conn refusal result.1) }
{
    match Store::<S, K>::create(alloc, conn, moves_limit) {
        Ok(store) => (Ok(()), store.close()),
        Err(refused) => {
            let (refusal, conn) = refused.into_parts();
            (Err(refusal), conn)
        }
    }
}
