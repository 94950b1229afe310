//! A stream that is read and written by a deadline.
//!
//! **Each call waits no longer than the time that is left, and fails if no time is left.** So a client that sends or
//! reads one byte at a time holds the program no longer than its connection may last. **A read also waits no longer
//! than a client may be silent**, so a client that sends nothing is disconnected sooner.
ghost use Rattle.std.specs.Prelude.{◌≡◌};
ghost use Rattle.std.specs.Io.{ReadsAtMost};
ghost use Rattle.std.specs.Io.KnownBytes.{ReadConsumes};

use crate::deadline::Deadline;
use std::io;
use std::io::{Read, Write};
use std::net::{OpenStream, Shutdown};
use std::time::{Clock, Instant};
use vetd_program::clients::network::HangUp;

/// The most bytes that are read and discarded after a reply.
pub const MOST_BYTES_AFTER_REPLY: usize = 33_554_432;

/// Reads a stream by a deadline.
#[derive(Drop)]
pub struct TimedReader<'a, C, T> {
    clock: &'a C,
    stream: T,
    deadline: Deadline,
}

impl<'a, C: Clock, T: Read + OpenStream> TimedReader<'a, C, T> {
    /// A reader of the stream.
    pub fn new(clock: &'a C, stream: T, deadline: Deadline) -> TimedReader<'a, C, T>
        ensures { (result.stream ≡ stream) × (result.deadline ≡ deadline) }
    {
        TimedReader {
            clock,
            stream,
            deadline,
        }
    }
}

impl<C: Clock, T: Read + OpenStream> Read for TimedReader<'_, C, T> {
    ghost remaining = { λ r. T.Read.remaining r.stream };

    fn read(&mut self, buf: &mut [u8]) -> io::Result<usize> {
        read_by(self.clock, &mut self.stream, self.deadline, buf)
    }
}

/// One read, which waits no longer than the time that is left, or than a client may be silent.
fn read_by<C: Clock, T: Read + OpenStream>(
    clock: &C,
    stream: &mut T,
    deadline: Deadline,
    buf: &mut [u8],
) -> io::Result<usize>
    ensures bound { ReadsAtMost result buf.new }
    ensures bytes { ReadConsumes (T.Read.remaining stream.old) (T.Read.remaining stream.new) result buf.new }
{
    let wait = deadline.read_wait(Instant::now(clock)?)?;
    stream.set_read_timeout(Some(wait))?;
    stream.read(buf)
}

/// Writes a stream by a deadline.
#[derive(Drop)]
pub struct TimedWriter<'a, C, T> {
    clock: &'a C,
    stream: T,
    deadline: Deadline,
}

impl<'a, C: Clock, T: Write + OpenStream> TimedWriter<'a, C, T> {
    /// A writer of the stream.
    pub fn new(clock: &'a C, stream: T, deadline: Deadline) -> TimedWriter<'a, C, T>
        ensures { (result.stream ≡ stream) × (result.deadline ≡ deadline) }
    {
        TimedWriter {
            clock,
            stream,
            deadline,
        }
    }
}

// No clause says that a read through the same stream leaves what was written alone, so the written bytes are not known.
impl<C: Clock, T: Write + OpenStream> Write for TimedWriter<'_, C, T> {
    fn write(&mut self, buf: &[u8]) -> io::Result<usize> {
        let left = self.deadline.time_left(Instant::now(self.clock)?)?;
        self.stream.set_write_timeout(Some(left))?;
        self.stream.write(buf)
    }

    fn flush(&mut self) -> io::Result<()> {
        self.stream.flush()
    }
}

impl<C: Clock, T: Read + Write + OpenStream> HangUp for TimedWriter<'_, C, T> {
    fn hang_up(&mut self, awaited: bool) {
        if awaited || has_unread(&self.stream) {
            let _ = self.stream.shutdown(Shutdown::Write);
            read_away(self.clock, &mut self.stream, self.deadline);
        }
    }
}

/// Whether bytes have come that nobody has read. False if this can't be found out.
fn has_unread<T: OpenStream>(stream: &T) -> bool {
    if stream.set_nonblocking(true).is_err() {
        return false;
    }
    let mut first = [0u8; 1];
    let unread = match stream.peek(&mut first) {
        Ok(n) => 0 < n,
        Err(_) => false,
    };
    stream.set_nonblocking(false).is_ok() && unread
}

/// Reads and discards up to the stream's end, 32 MiB or the deadline. A read that fails or times out ends it.
fn read_away<C: Clock, T: Read + OpenStream>(clock: &C, stream: &mut T, deadline: Deadline) {
    let mut chunk = [0u8; 4096];
    let mut taken = 0;
    'away: while taken < MOST_BYTES_AFTER_REPLY {
        let most = chunk.len().min(MOST_BYTES_AFTER_REPLY - taken);
        match read_by(clock, stream, deadline, &mut chunk[..most]) {
            Ok(0) => return,
            Ok(n) => taken += n,
            Err(_) => return,
        }
    }
}
