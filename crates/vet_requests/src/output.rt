//! Writes, and the bytes that are written before a fault.
ghost use Rattle.std.specs.Prelude.{◌≡◌, OnOk, OnErr, IfErr};
ghost use Rattle.std.specs.Io.KnownBytes.{Appends};
ghost use Rattle.vet_requests.specs.Output.{AppendsPart};

use crate::io_fault::IoFault;
use std::io::Write;

/// Writes all the bytes. Refused: `Output` if a write fails, is interrupted or takes nothing. The bytes before it are
/// then written.
pub fn write_whole<W: Write>(writer: &mut W, bytes: &[u8]) -> Result<(), IoFault>
    ensures whole { OnOk result (Appends (W.contents writer.old) (W.contents writer.new) bytes.now) }
    ensures part { OnErr result (AppendsPart (W.contents writer.old) (W.contents writer.new) bytes.now) }
    ensures faults { IfErr result (λ fault. fault ≡ IoFault.Output) }
{
    let mut at = 0;
    while at < bytes.len() {
        match writer.write(&bytes[at..]) {
            Ok(0) => return Err(IoFault::Output),
            Ok(n) => at += n,
            Err(_) => return Err(IoFault::Output),
        }
    }
    Ok(())
}
