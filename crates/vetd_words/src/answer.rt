//! The answer of a run, and its status.
ghost use Rattle.std.specs.Prelude.{◌≡◌, ◌≢◌, ℕ, List, IfOk, IfErr, string_bytes};
ghost use Rattle.std.specs.Io.KnownBytes.{Appends, Keeps};
ghost use Rattle.clap.specs.Words.{kind_of};
ghost use Rattle.vetd_words.specs.Answer.{IsExplained, IsExplainedInPart, Says, Stops, answer_for};
ghost use Rattle.vet_requests.specs.Output.{AppendsPart};

use clap::Error;
use clap::error::ErrorKind;
use std::alloc::Global;
use std::io::Write;
use vet_base::refusal::Refusal;
use vet_reports::refusal_text::refusal_text;
use vet_requests::io_fault::IoFault;
use vet_requests::output::write_whole;

/// The status of a run that printed its answer.
pub const PRINTED: u8 = 0;

/// The status of a run that printed a refusal.
pub const REFUSED: u8 = 1;

/// The status of a run that explained its command line.
pub const EXPLAINED: u8 = 2;

/// Writes clap's text: help and the version, which were asked for, to the output, and a fault of the words to the
/// errors. Fails with `NoMemory`, and then nothing was written, or with `Output`, and then a prefix of the text was.
pub fn explain<W: Write, E: Write>(
    alloc: Global,
    error: &Error,
    writer: &mut W,
    errors: &mut E,
) -> Result<u8, IoFault>
    ensures says { IfOk result (λ status. (status ≡ EXPLAINED) × (kind_of error.now ≢ ErrorKind.OutOfMemory)
        × IsExplained (W.contents writer.old) (W.contents writer.new)
        (E.contents errors.old) (E.contents errors.new)) }
    ensures part { IfErr result (λ fault. fault ≡ IoFault.Output → (kind_of error.now ≢ ErrorKind.OutOfMemory)
        × IsExplainedInPart (W.contents writer.old) (W.contents writer.new)
        (E.contents errors.old) (E.contents errors.new)) }
    ensures silent { IfErr result (λ fault. fault ≢ IoFault.Output
        → Keeps (W.contents writer.old) (W.contents writer.new)
        × Keeps (E.contents errors.old) (E.contents errors.new)) }
    ensures help { kind_of error.now ≡ ErrorKind.DisplayHelp
        → Keeps (E.contents errors.old) (E.contents errors.new) }
    ensures version { kind_of error.now ≡ ErrorKind.DisplayVersion
        → Keeps (E.contents errors.old) (E.contents errors.new) }
    ensures wrong { kind_of error.now ≢ ErrorKind.DisplayHelp → kind_of error.now ≢ ErrorKind.DisplayVersion
        → Keeps (W.contents writer.old) (W.contents writer.new) }
    ensures faults { IfErr result (λ fault. (fault ≢ IoFault.Input) × (fault ≢ IoFault.Endless)) }
    ensures memory { kind_of error.now ≡ ErrorKind.OutOfMemory → result ≡ Err IoFault.NoMemory }
{
    if error.kind() == ErrorKind::OutOfMemory {
        return Err(IoFault::NoMemory);
    }
    let text = error.to_string(alloc)?;
    if error.use_stderr() {
        write_whole(errors, text.as_bytes())?;
    } else {
        write_whole(writer, text.as_bytes())?;
    }
    Ok(EXPLAINED)
}

/// Writes the text to the output, or the refusal to the errors. Fails with `NoMemory` if that is the refusal or if
/// memory runs out for its line, and then nothing was written, or with `Output`, and then a prefix of the answer was.
pub fn report<W: Write, E: Write>(
    alloc: Global,
    told: &Result<String, Refusal>,
    writer: &mut W,
    errors: &mut E,
) -> Result<u8, IoFault>
    ensures says { IfOk result (λ status. Says (answer_for string_bytes told.now) status
        (W.contents writer.old) (W.contents writer.new)
        (E.contents errors.old) (E.contents errors.new)) }
    ensures part { IfErr result (λ fault. fault ≡ IoFault.Output → Stops (answer_for string_bytes told.now)
        (W.contents writer.old) (W.contents writer.new)
        (E.contents errors.old) (E.contents errors.new)) }
    ensures silent { IfErr result (λ fault. fault ≢ IoFault.Output
        → Keeps (W.contents writer.old) (W.contents writer.new)
        × Keeps (E.contents errors.old) (E.contents errors.new)) }
    ensures faults { IfErr result (λ fault. fault ≢ IoFault.Endless) }
    ensures unread { IfErr result (λ fault. fault ≢ IoFault.Input) }
    ensures printed { IfOk told.now (λ _. IfErr result (λ fault. fault ≡ IoFault.Output)) }
{
    match told {
        Ok(text) => {
            write_whole(writer, text.as_bytes())?;
            Ok(PRINTED)
        }
        Err(Refusal::NoMemory) => Err(IoFault::NoMemory),
        Err(refusal) => {
            let line = refusal_text(alloc, refusal)?;
            write_whole(errors, line.as_bytes())?;
            Ok(REFUSED)
        }
    }
}
