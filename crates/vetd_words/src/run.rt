//! A run of a command that reads a file, from the words and the input to the output.
ghost use Rattle.std.specs.Prelude.{◌≡◌, ◌≢◌, ◌+◌, ◌⊎◌, IfOk, IfErr, map, string_bytes};
ghost use Rattle.std.specs.Io.KnownBytes.{Keeps};
ghost use Rattle.clap.specs.Words.{kind_of};
ghost use Rattle.vet_base.specs.declared.limits.TheConstants.{MOST_READS};
ghost use Rattle.vetd_words.specs.Answer.{Answers, Says, Stops};
ghost use Rattle.vetd_words.specs.Asked.{asked_by, telling_of};
ghost use Rattle.vetd_words.specs.Words.{AskForHelp, AskForNoHelp};
ghost use Rattle.vet_requests.specs.Input.{TakesAtMost, heard};

use crate::answer::{explain, report};
use crate::asked::{CommandKind, FileQuery};
use clap::Error;
use clap::error::ErrorKind;
use std::alloc::Global;
use std::convert::AsStr;
use std::io::{Read, Write};
use vet_base::limits::MOST_INPUT_BYTES;
use vet_requests::input::CountedReader;
use vet_requests::io_fault::IoFault;

/// Answers the words of a command, which come without the program's own name, from the file that the reader gives. The
/// answer goes to `writer`, as do help and the version, and a refusal or clap's error to `errors`. The content of
/// clap's texts is left open. At most 8,388,609 bytes are read, by at most 10,000,000 reads.
///
/// **If a status is returned, the whole answer to the words and the input was written.** The answer is the first of
/// these that applies: clap's text if the words are not such a command; a refusal of the command; its line. Fails with
/// `Input`, `Endless` or `NoMemory`, and then nothing was written, or with `Output`, and then a prefix of the answer
/// was.
pub fn command_run<S: AsStr, R: Read, W: Write, E: Write>(
    alloc: Global,
    command: CommandKind,
    words: &[S],
    reader: &mut CountedReader<R>,
    writer: &mut W,
    errors: &mut E,
) -> Result<u8, IoFault>
    ensures says { IfOk result (λ status. Answers (heard R.remaining reader.old) (heard R.remaining reader.new)
        (asked_by command (map S.text words.now))
        (λ answer. Says answer status (W.contents writer.old) (W.contents writer.new)
        (E.contents errors.old) (E.contents errors.new))) }
    ensures part { IfErr result (λ fault. fault ≡ IoFault.Output
        → Answers (heard R.remaining reader.old) (heard R.remaining reader.new)
        (asked_by command (map S.text words.now))
        (λ answer. Stops answer (W.contents writer.old) (W.contents writer.new)
        (E.contents errors.old) (E.contents errors.new))) }
    ensures silent { IfErr result (λ fault. fault ≢ IoFault.Output
        → Keeps (W.contents writer.old) (W.contents writer.new)
        × Keeps (E.contents errors.old) (E.contents errors.new)) }

    // No more is read, and nothing if the words are not such a command.
    ensures bounded { TakesAtMost (MOST_INPUT_BYTES + 1)
        (heard R.remaining reader.old) (heard R.remaining reader.new) }
    ensures unread { asked_by command (map S.text words.now) ≡ None → reader.new ≡ reader.old }
    ensures unfailing { asked_by command (map S.text words.now) ≡ None
        → IfErr result (λ fault. (fault ≢ IoFault.Input) × (fault ≢ IoFault.Endless)) }

    // `Endless` is returned only once all reads are made. If they were made before, nothing is printed about a file.
    ensures endless { result ≡ Err IoFault.Endless → reader.new.made ≡ MOST_READS }
    ensures spent { reader.old.made ≡ MOST_READS → asked_by command (map S.text words.now) ≢ None
        → (result ≡ Err IoFault.Endless) ⊎ (result ≡ Err IoFault.NoMemory) }

    // Help and the version go to the output, and a fault of the words to the errors.
    ensures help { AskForHelp (map S.text words.now) → Keeps (E.contents errors.old) (E.contents errors.new) }
    ensures wrong { asked_by command (map S.text words.now) ≡ None → AskForNoHelp (map S.text words.now)
        → Keeps (W.contents writer.old) (W.contents writer.new) }
{
    let asked = command.asked(alloc, words);
    run(alloc, asked, reader, writer, errors)
}

/// Answers the words of `vetd class` as `command_run` does: the word of the class that the audits file gives a pair.
pub fn class_run<S: AsStr, R: Read, W: Write, E: Write>(
    alloc: Global,
    words: &[S],
    reader: &mut CountedReader<R>,
    writer: &mut W,
    errors: &mut E,
) -> Result<u8, IoFault>
    ensures says { IfOk result (λ status. Answers (heard R.remaining reader.old) (heard R.remaining reader.new)
        (asked_by CommandKind.Class (map S.text words.now))
        (λ answer. Says answer status (W.contents writer.old) (W.contents writer.new)
        (E.contents errors.old) (E.contents errors.new))) }
    ensures part { IfErr result (λ fault. fault ≡ IoFault.Output
        → Answers (heard R.remaining reader.old) (heard R.remaining reader.new)
        (asked_by CommandKind.Class (map S.text words.now))
        (λ answer. Stops answer (W.contents writer.old) (W.contents writer.new)
        (E.contents errors.old) (E.contents errors.new))) }
    ensures silent { IfErr result (λ fault. fault ≢ IoFault.Output
        → Keeps (W.contents writer.old) (W.contents writer.new)
        × Keeps (E.contents errors.old) (E.contents errors.new)) }

    // No more is read, and nothing if the words are not such a command.
    ensures bounded { TakesAtMost (MOST_INPUT_BYTES + 1)
        (heard R.remaining reader.old) (heard R.remaining reader.new) }
    ensures unread { asked_by CommandKind.Class (map S.text words.now) ≡ None → reader.new ≡ reader.old }
    ensures unfailing { asked_by CommandKind.Class (map S.text words.now) ≡ None
        → IfErr result (λ fault. (fault ≢ IoFault.Input) × (fault ≢ IoFault.Endless)) }

    // `Endless` is returned only once all reads are made. If they were made before, nothing is printed about a file.
    ensures endless { result ≡ Err IoFault.Endless → reader.new.made ≡ MOST_READS }
    ensures spent { reader.old.made ≡ MOST_READS → asked_by CommandKind.Class (map S.text words.now) ≢ None
        → (result ≡ Err IoFault.Endless) ⊎ (result ≡ Err IoFault.NoMemory) }

    // Help and the version go to the output, and a fault of the words to the errors.
    ensures help { AskForHelp (map S.text words.now) → Keeps (E.contents errors.old) (E.contents errors.new) }
    ensures wrong { asked_by CommandKind.Class (map S.text words.now) ≡ None → AskForNoHelp (map S.text words.now)
        → Keeps (W.contents writer.old) (W.contents writer.new) }
{
    command_run(alloc, CommandKind::Class, words, reader, writer, errors)
}

/// Answers the words of `vetd read` as `command_run` does: the counts of what a file holds.
pub fn read_run<S: AsStr, R: Read, W: Write, E: Write>(
    alloc: Global,
    words: &[S],
    reader: &mut CountedReader<R>,
    writer: &mut W,
    errors: &mut E,
) -> Result<u8, IoFault>
    ensures says { IfOk result (λ status. Answers (heard R.remaining reader.old) (heard R.remaining reader.new)
        (asked_by CommandKind.Read (map S.text words.now))
        (λ answer. Says answer status (W.contents writer.old) (W.contents writer.new)
        (E.contents errors.old) (E.contents errors.new))) }
    ensures part { IfErr result (λ fault. fault ≡ IoFault.Output
        → Answers (heard R.remaining reader.old) (heard R.remaining reader.new)
        (asked_by CommandKind.Read (map S.text words.now))
        (λ answer. Stops answer (W.contents writer.old) (W.contents writer.new)
        (E.contents errors.old) (E.contents errors.new))) }
    ensures silent { IfErr result (λ fault. fault ≢ IoFault.Output
        → Keeps (W.contents writer.old) (W.contents writer.new)
        × Keeps (E.contents errors.old) (E.contents errors.new)) }

    // No more is read, and nothing if the words are not such a command.
    ensures bounded { TakesAtMost (MOST_INPUT_BYTES + 1)
        (heard R.remaining reader.old) (heard R.remaining reader.new) }
    ensures unread { asked_by CommandKind.Read (map S.text words.now) ≡ None → reader.new ≡ reader.old }
    ensures unfailing { asked_by CommandKind.Read (map S.text words.now) ≡ None
        → IfErr result (λ fault. (fault ≢ IoFault.Input) × (fault ≢ IoFault.Endless)) }

    // `Endless` is returned only once all reads are made. If they were made before, nothing is printed about a file.
    ensures endless { result ≡ Err IoFault.Endless → reader.new.made ≡ MOST_READS }
    ensures spent { reader.old.made ≡ MOST_READS → asked_by CommandKind.Read (map S.text words.now) ≢ None
        → (result ≡ Err IoFault.Endless) ⊎ (result ≡ Err IoFault.NoMemory) }

    // Help and the version go to the output, and a fault of the words to the errors.
    ensures help { AskForHelp (map S.text words.now) → Keeps (E.contents errors.old) (E.contents errors.new) }
    ensures wrong { asked_by CommandKind.Read (map S.text words.now) ≡ None → AskForNoHelp (map S.text words.now)
        → Keeps (W.contents writer.old) (W.contents writer.new) }
{
    command_run(alloc, CommandKind::Read, words, reader, writer, errors)
}

/// Answers a query from the file that the reader gives, or writes clap's error, to the writers that `command_run`
/// takes.
fn run<R: Read, W: Write, E: Write>(
    alloc: Global,
    asked: Result<FileQuery<'_>, Error>,
    reader: &mut CountedReader<R>,
    writer: &mut W,
    errors: &mut E,
) -> Result<u8, IoFault>
    ensures says { IfOk result (λ status. Answers (heard R.remaining reader.old) (heard R.remaining reader.new)
        (telling_of asked.entry) (λ answer. Says answer status (W.contents writer.old) (W.contents writer.new)
        (E.contents errors.old) (E.contents errors.new))) }
    ensures part { IfErr result (λ fault. fault ≡ IoFault.Output
        → Answers (heard R.remaining reader.old) (heard R.remaining reader.new) (telling_of asked.entry)
        (λ answer. Stops answer (W.contents writer.old) (W.contents writer.new)
        (E.contents errors.old) (E.contents errors.new))) }
    ensures silent { IfErr result (λ fault. fault ≢ IoFault.Output
        → Keeps (W.contents writer.old) (W.contents writer.new)
        × Keeps (E.contents errors.old) (E.contents errors.new)) }

    // No more is read, and nothing if there is an error. If clap ran out of memory, the fault is `NoMemory`.
    ensures bounded { TakesAtMost (MOST_INPUT_BYTES + 1)
        (heard R.remaining reader.old) (heard R.remaining reader.new) }
    ensures unread { IfErr asked.entry (λ _. reader.new ≡ reader.old) }
    ensures unfailing { IfErr asked.entry (λ _.
        IfErr result (λ fault. (fault ≢ IoFault.Input) × (fault ≢ IoFault.Endless))) }
    ensures memory { IfErr asked.entry (λ error. kind_of error ≡ ErrorKind.OutOfMemory
        → result ≡ Err IoFault.NoMemory) }

    // `Endless` is returned only once all reads are made. If they were made before, nothing is printed.
    ensures endless { result ≡ Err IoFault.Endless → reader.new.made ≡ MOST_READS }
    ensures spent { reader.old.made ≡ MOST_READS
        → IfOk asked.entry (λ _. result ≡ Err IoFault.Endless) }

    // Help and the version go to the output, and any other error to the errors.
    ensures help { IfErr asked.entry (λ error. kind_of error ≡ ErrorKind.DisplayHelp
        → Keeps (E.contents errors.old) (E.contents errors.new)) }
    ensures version { IfErr asked.entry (λ error. kind_of error ≡ ErrorKind.DisplayVersion
        → Keeps (E.contents errors.old) (E.contents errors.new)) }
    ensures wrong { IfErr asked.entry (λ error. kind_of error ≢ ErrorKind.DisplayHelp
        → kind_of error ≢ ErrorKind.DisplayVersion → Keeps (W.contents writer.old) (W.contents writer.new)) }
{
    let asked = match asked {
        Ok(asked) => asked,
        Err(error) => return explain(alloc, &error, writer, errors),
    };
    let start = reader.handed().len();
    reader.read_at_most(MOST_INPUT_BYTES + 1)?;
    let told = asked.line(alloc, reader.handed_from(start));
    report(alloc, &told, writer, errors)
}
