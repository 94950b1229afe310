//! The apply command, which applies a command document to a register in a database.
ghost use Rattle.std.specs.Prelude.{◌≡◌, ◌≢◌, ◌⊎◌, ◌+◌, ◌≤◌, IfErr, IfOk, None, false, map, string_bytes};
ghost use Rattle.std.specs.Prelude.{[], IsOkAnd, Some, option_map, string_capacity};
ghost use Rattle.std.specs.Io.KnownBytes.{Keeps};
ghost use Rattle.std.specs.Option.{option_copied};
ghost use Rattle.vet_base.specs.Day.{read_day};
ghost use Rattle.vet_base.specs.declared.limits.TheConstants.{MOST_READS};
ghost use Rattle.vet_reports.specs.OutcomeText.{outcome_text};
ghost use Rattle.vet_reports.specs.declared.outcome_text.TheConstants.{MOST_OUTCOME_BYTES};
ghost use Rattle.vetd_words.specs.Answer.{IsWritten, answer_for};
ghost use Rattle.vetd_words.specs.ApplyGiven.{apply_given};
ghost use Rattle.vetd_words.specs.ApplyWords.{apply_asked};
ghost use Rattle.vetd_words.specs.Words.{AskForHelp, AskForNoHelp};
ghost use Rattle.vetd_commands.specs.Applying.{AnswersApply, IsApplyAnswer, IsApplyFor, IsDocumentAnswer};
ghost use Rattle.vetd_commands.specs.Applying.{IsUnapplied, day_given};
ghost use Rattle.vetd_commands.specs.Making.{FoundBy};
ghost use Rattle.vet_requests.specs.Input.{TakesAtMost, heard};

use crate::databases::{DatabaseRun, Databases};
use sqlite::{Alter, Connection};
use std::alloc::Global;
use std::convert::AsStr;
use std::io::{Read, Write};
use vet_base::day::Day;
use vet_base::limits::MOST_INPUT_BYTES;
use vet_base::refusal::Refusal;
use vet_documents::command_document::read_command;
use vet_graph::keeper::Keeper;
use vet_register::command::Outcome;
use vet_reports::outcome_text::{MOST_OUTCOME_BYTES, write_outcome};
use vet_requests::input::CountedReader;
use vet_requests::io_fault::IoFault;
use vet_store::laws::classes_are_of_chains;
use vet_store::store::Store;
use vetd_words::answer::{explain, report};
use vetd_words::apply_words::{ApplyWords, apply_words};

/// Answers the words of an apply command, which come without the program's own name, from the document that the reader
/// gives. The line of the outcome goes to `writer`, as do help and the version, and a refusal or clap's error to
/// `errors`. At most 8,388,609 bytes are read, by at most 10,000,000 reads.
///
/// **The printed line is the outcome of the document's command in the one register whose rows are in the tables of the
/// database at the path, and the tables then have the rows of the state after it.** Refusals that the user reads, the
/// first that applies: `BadDay` if the text of the day is not a day, before anything is read; `NotARegister` if there
/// is no file at the path, if the tables have the rows of no register, or if they are of the first version and a name
/// that only the second has is taken, and `StoreRefused` if no database can be opened or read there; everything that
/// `read_command` refuses of the document; everything that the machine refuses of the command, and `StoreRefused` if
/// the database refuses to store it. Faults: `Input`, `Endless` and `NoMemory` if nothing was printed, and `Output` if
/// a prefix of the answer was.
pub fn apply_run<
    T: AsStr,
    S: Alter + Drop,
    K: Keeper,
    D: Databases<S>,
    R: Read,
    W: Write,
    E: Write,
>(
    alloc: Global,
    words: &[T],
    reader: &mut CountedReader<R>,
    databases: &mut D,
    writer: &mut W,
    errors: &mut E,
) -> DatabaseRun<S>
    ensures written { IsWritten (AnswersApply S.Store (FoundBy (D.may_find databases.old))
        (heard R.remaining reader.old) (heard R.remaining reader.new)
        (apply_given (map T.text words.now)) result.conn)
        (IsUnapplied S.Store (FoundBy (D.may_find databases.old))
        (heard R.remaining reader.old) (heard R.remaining reader.new)
        (apply_given (map T.text words.now)) result.conn)
        result.status (W.contents writer.old) (W.contents writer.new)
        (E.contents errors.old) (E.contents errors.new) }

    // No more is read, and nothing if the words are not an apply command or the text of the day is not a day.
    ensures bounded { TakesAtMost (MOST_INPUT_BYTES + 1)
        (heard R.remaining reader.old) (heard R.remaining reader.new) }
    ensures unread { day_given (apply_given (map T.text words.now)) ≡ None → reader.new ≡ reader.old }
    ensures unfailing { day_given (apply_given (map T.text words.now)) ≡ None
        → IfErr result.status (λ fault. (fault ≢ IoFault.Input) × (fault ≢ IoFault.Endless)) }

    // `Endless` is returned only once all reads are made. If they were made before, no document is answered.
    ensures endless { result.status ≡ Err IoFault.Endless → reader.new.made ≡ MOST_READS }
    ensures spent { reader.old.made ≡ MOST_READS → day_given (apply_given (map T.text words.now)) ≢ None
        → (result.status ≡ Err IoFault.Endless) ⊎ (result.status ≡ Err IoFault.NoMemory) }

    // Help and the version go to the output, and a fault of the words to the errors.
    ensures help { AskForHelp (map T.text words.now) → Keeps (E.contents errors.old) (E.contents errors.new) }
    ensures wrong { apply_given (map T.text words.now) ≡ None
        → AskForNoHelp (map T.text words.now) → Keeps (W.contents writer.old) (W.contents writer.new) }
{
    match apply_words(alloc, words) {
        Ok(asked) => apply_on::<S, K, D, R, W, E>(alloc, asked, reader, databases, writer, errors),
        Err(error) => DatabaseRun {
            status: explain(alloc, &error, writer, errors),
            conn: None,
        },
    }
}

/// Applies the document that the reader gives, as the words ask.
fn apply_on<S: Alter + Drop, K: Keeper, D: Databases<S>, R: Read, W: Write, E: Write>(
    alloc: Global,
    asked: ApplyWords<'_>,
    reader: &mut CountedReader<R>,
    databases: &mut D,
    writer: &mut W,
    errors: &mut E,
) -> DatabaseRun<S>
    ensures written { IsWritten (AnswersApply S.Store (FoundBy (D.may_find databases.old))
        (heard R.remaining reader.old) (heard R.remaining reader.new)
        (Some (apply_asked asked.entry)) result.conn)
        (IsUnapplied S.Store (FoundBy (D.may_find databases.old))
        (heard R.remaining reader.old) (heard R.remaining reader.new)
        (Some (apply_asked asked.entry)) result.conn)
        result.status (W.contents writer.old) (W.contents writer.new)
        (E.contents errors.old) (E.contents errors.new) }
    ensures bounded { TakesAtMost (MOST_INPUT_BYTES + 1)
        (heard R.remaining reader.old) (heard R.remaining reader.new) }
    ensures unread { read_day asked.entry.day.now ≡ None → reader.new ≡ reader.old }
    ensures unfailing { read_day asked.entry.day.now ≡ None
        → IfErr result.status (λ fault. (fault ≢ IoFault.Input) × (fault ≢ IoFault.Endless)) }
    ensures endless { result.status ≡ Err IoFault.Endless → reader.new.made ≡ MOST_READS }
    ensures spent { reader.old.made ≡ MOST_READS → read_day asked.entry.day.now ≢ None
        → result.status ≡ Err IoFault.Endless }
{
    let day = match Day::parse(asked.day) {
        Ok(day) => day,
        Err(refusal) => {
            return DatabaseRun {
                status: report(alloc, &Err(refusal), writer, errors),
                conn: None,
            };
        }
    };
    let start = reader.handed().len();
    if let Err(fault) = reader.read_at_most(MOST_INPUT_BYTES + 1) {
        return DatabaseRun {
            status: Err(fault),
            conn: None,
        };
    }
    let (told, conn) = apply_at::<S, K, D>(
        alloc,
        databases,
        asked.path,
        reader.handed_from(start),
        day,
        bytes_of(asked.member),
    );
    let status = report(alloc, &told, writer, errors);
    DatabaseRun { status, conn }
}

/// The bytes of a text, if there is one.
fn bytes_of(text: Option<&str>) -> Option<&[u8]>
    ensures { option_copied result ≡ option_map (λ t. t.now) text.entry }
{
    match text {
        Some(text) => Some(text.as_bytes()),
        None => None,
    }
}

/// Applies a document to the register at a path. Room for the line of the outcome is taken first, since the line is
/// printed after the command is stored.
fn apply_at<S: Alter + Drop, K: Keeper, D: Databases<S>>(
    alloc: Global,
    databases: &mut D,
    path: &str,
    document: &[u8],
    day: Day,
    giver: Option<&[u8]>,
) -> (Result<String, Refusal>, Option<Connection<S>>)
    ensures { IsApplyFor S.Store (FoundBy (D.may_find databases.old)) path.now (option_copied giver.entry) day
        document.now (answer_for string_bytes result.0) result.1 }
{
    let line = match String::with_capacity(alloc, MOST_OUTCOME_BYTES) {
        Ok(line) => line,
        Err(_) => return (Err(Refusal::NoMemory), None),
    };
    let conn = match databases.find(path) {
        Ok(conn) => conn,
        Err(refusal) => return (Err(refusal), None),
    };
    let (told, conn) = applied::<S, K>(alloc, conn, document, day, giver, line);
    (told, Some(conn))
}

/// Applies a document to the register in the tables of a connection, and returns the connection.
fn applied<S: Alter + Drop, K: Keeper>(
    alloc: Global,
    conn: Connection<S>,
    document: &[u8],
    day: Day,
    giver: Option<&[u8]>,
    line: String,
) -> (Result<String, Refusal>, Connection<S>)
    requires outside { conn.in_transaction ≡ false }
    requires empty { string_bytes line ≡ [] }
    requires room { MOST_OUTCOME_BYTES ≤ string_capacity line }
    ensures { IsApplyAnswer S.Store document.now day (option_copied giver.entry) conn
        (answer_for string_bytes result.0) result.1 }
{
    let store = match Store::<S, K>::open(alloc, conn) {
        Ok(store) => store,
        Err(refused) => {
            let (refusal, conn) = refused.into_parts();
            return (Err(refusal), conn);
        }
    };
    run_document(alloc, store, document, day, giver, line)
}

/// Runs the command of a document on an open register, and returns the connection.
fn run_document<S: Alter + Drop, K: Keeper>(
    alloc: Global,
    store: Store<S, K>,
    document: &[u8],
    day: Day,
    giver: Option<&[u8]>,
    line: String,
) -> (Result<String, Refusal>, Connection<S>)
    requires served { store.shut ≡ false }
    requires empty { string_bytes line ≡ [] }
    requires room { MOST_OUTCOME_BYTES ≤ string_capacity line }
    ensures { IsDocumentAnswer S.Store document.now day (option_copied giver.entry) store.conn store.register.state
        (answer_for string_bytes result.0) result.1 }
{
    let mut store = store;
    match read_command(alloc, document, day, giver) {
        Ok(command) => {
            let answer = store.run(alloc, &command);
            classes_are_of_chains(store.register());
            (outcome_line(answer, line), store.close())
        }
        Err(refusal) => (Err(refusal), store.close()),
    }
}

/// The line of an outcome in a text that has room for it, unless there is a refusal. Takes no memory.
fn outcome_line(answer: Result<Outcome, Refusal>, line: String) -> Result<String, Refusal>
    requires empty { string_bytes line ≡ [] }
    requires room { MOST_OUTCOME_BYTES ≤ string_capacity line }
    ensures done { IfOk answer (λ outcome. IsOkAnd result (λ text. string_bytes text ≡ outcome_text outcome)) }
    ensures refused { IfErr answer (λ refusal. result ≡ Err refusal) }
{
    match answer {
        Ok(outcome) => {
            let mut line = line;
            write_outcome(&mut line, &outcome);
            Ok(line)
        }
        Err(refusal) => Err(refusal),
    }
}
