//! Counted reads, and the bytes that they gave.
//!
//! Each byte that a reader hands over is kept here, in one place of the code, and the contracts about a reader speak of
//! these bytes. So they hold even for a reader that does not say which bytes it has left, such as a socket.
ghost use Rattle.std.specs.Prelude.{◌≡◌, ◌≢◌, [], ℕ, ◌+◌, ◌≤◌, ◌<◌, List, drop, length, take};
ghost use Rattle.std.specs.Prelude.{IfOk, IfErr, IfSome, OnErr};
ghost use Rattle.std.specs.Io.KnownBytes.{Consumes, IsAtEnd, Keeps};
ghost use Rattle.vet_requests.specs.Input.{Counted, Hands, TakesAtMost, heard};
ghost use Rattle.vet_base.specs.declared.limits.TheConstants.{MOST_READS};

use crate::io_fault::IoFault;
use std::alloc::Global;
use std::io::{ErrorKind, Read};
use std::marker::Model;
use vet_base::limits::MOST_READS;

/// A reader that only this value holds, the bytes that it gave, and the number of reads made of it, which is at most
/// the number that a run may make.
#[derive(Drop)]
pub struct CountedReader<R> {
    source: R,
    handed: Vec<u8>,
    made: u32,
}

impl<R> Model for CountedReader<R> {
    ghost Value = { Counted R };

    ghost view = { λ r. record { source = r.source; handed = r.handed.items; made = r.made } };

    ghost invariant = { λ r. r.made ≤ MOST_READS };
}

impl<R> CountedReader<R> {
    /// A reader of which no read was made yet.
    pub fn new(alloc: Global, source: R) -> CountedReader<R>
        ensures source { result.source ≡ source }
        ensures handed { result.handed ≡ [] }
        ensures made { result.made ≡ 0 }
    {
        CountedReader {
            source,
            handed: Vec::new(alloc),
            made: 0,
        }
    }

    /// The bytes that it handed over.
    pub fn handed(&self) -> &[u8]
        ensures { result.now ≡ self.now.handed }
    {
        self.handed.as_slice()
    }

    /// The bytes after the first `start` of them.
    pub fn handed_from(&self, start: usize) -> &[u8]
        requires { start ≤ length self.now.handed }
        ensures { result.now ≡ drop start self.now.handed }
    {
        &self.handed.as_slice()[start..]
    }
}

impl<R: Read> CountedReader<R> {
    /// Reads up to the reader's end, or `limit` bytes, and returns how many came. Refused: `Input`; `Endless` if the
    /// reads that a run may make are used up before that; `NoMemory`.
    pub fn read_at_most(&mut self, limit: usize) -> Result<usize, IoFault>
        ensures read { IfOk result (λ n. (bytes : List ℕ)
            × ((length bytes ≡ n)
            × (Hands (heard R.remaining self.old) (heard R.remaining self.new) bytes
            × IfSome (R.remaining self.old.source) (λ input. bytes ≡ take limit input)))) }
        ensures bound { IfOk result (λ n. n ≤ limit) }
        ensures bounded { TakesAtMost limit (heard R.remaining self.old) (heard R.remaining self.new) }
        ensures endless { result ≡ Err IoFault.Endless → self.new.made ≡ MOST_READS }
        ensures spent { self.old.made ≡ MOST_READS → 0 < limit
            → (result ≡ Err IoFault.Endless) × (self.new ≡ self.old) }
        ensures faults { IfErr result (λ fault. fault ≢ IoFault.Output) }
    {
        let mut count = 0usize;
        while count < limit {
            let n = self.read_more(limit - count)?;
            if n == 0 {
                return Ok(count);
            }
            count += n;
        }
        Ok(count)
    }

    /// Makes one read of at most `most` bytes, again if it is interrupted. Returns how many came, which is 0 only at
    /// the input's end. Refused: `Input`; `Endless` if no read is left; `NoMemory`, before anything is read.
    pub(crate) fn read_more(&mut self, most: usize) -> Result<usize, IoFault>
        requires { 0 < most }
        ensures read { IfOk result (λ n. (bytes : List ℕ)
            × ((length bytes ≡ n) × Hands (heard R.remaining self.old) (heard R.remaining self.new) bytes)) }
        ensures count { IfOk result (λ n. n ≤ most) }
        ensures end { IfOk result (λ n. n ≡ 0 → IsAtEnd (R.remaining self.new.source)) }
        ensures kept { OnErr result (Hands (heard R.remaining self.old) (heard R.remaining self.new) []) }
        ensures endless { result ≡ Err IoFault.Endless → self.new.made ≡ MOST_READS }
        ensures spent { self.old.made ≡ MOST_READS → (result ≡ Err IoFault.Endless) × (self.new ≡ self.old) }
        ensures faults { IfErr result (λ fault. fault ≢ IoFault.Output) }
    {
        if self.made == MOST_READS {
            return Err(IoFault::Endless);
        }
        let mut chunk = [0u8; 4096];
        let room = most.min(chunk.len());
        self.handed.reserve(room)?;
        let n = read_counted(&mut self.source, &mut self.made, &mut chunk[..room])?;
        match self.handed.extend_from_slice(&chunk[..n]) {
            Ok(()) => Ok(n),
            Err(_) => unreachable!(),
        }
    }
}

/// Makes one read, again if it is interrupted, and returns how many bytes went to the start of `buf`. Each read is
/// counted, even an interrupted one. Refused: `Input`, and `Endless` if no read is left.
fn read_counted<R: Read>(source: &mut R, made: &mut u32, buf: &mut [u8]) -> Result<usize, IoFault>
    requires { made.old ≤ MOST_READS }
    ensures bound { IfOk result (λ n. n ≤ length buf.new) }
    ensures room { length buf.new ≡ length buf.old }
    ensures within { made.new ≤ MOST_READS }
    ensures bytes { IfOk result (λ n. Consumes (R.remaining source.old) (R.remaining source.new) (take n buf.new)) }
    ensures end { IfOk result (λ n. n ≡ 0 → 0 < length buf.old → IsAtEnd (R.remaining source.new)) }
    ensures kept { OnErr result (Keeps (R.remaining source.old) (R.remaining source.new)) }
    ensures endless { result ≡ Err IoFault.Endless → made.new ≡ MOST_READS }
    ensures faults { IfErr result (λ fault. (fault ≢ IoFault.Output) × (fault ≢ IoFault.NoMemory)) }
{
    while *made < MOST_READS {
        *made += 1;
        match source.read(buf) {
            Ok(n) => return Ok(n),
            Err(error) => {
                if error.kind() != ErrorKind::Interrupted {
                    return Err(IoFault::Input);
                }
            }
        }
    }
    Err(IoFault::Endless)
}
