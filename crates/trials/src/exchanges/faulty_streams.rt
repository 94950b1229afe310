//! A reader and a writer that give and take one byte for each call, and fail at a given call. Both count their calls.
ghost use Rattle.std.specs.Prelude.{◌≡◌, IfOk};

use std::alloc::Global;
use std::io;
use std::io::{ErrorKind, Read, Write};

/// When reads are interrupted.
#[derive(Clone, Copy)]
pub enum Interruptions {
    /// None is.
    Never,
    /// One before each byte is.
    BeforeEach,
    /// Each is.
    Always,
}

/// Gives one byte for each read.
#[derive(Drop)]
pub struct FaultyReader<'a> {
    left: &'a [u8],
    interruptions: Interruptions,
    /// The number of the read that fails. No read has the number 0.
    failing: usize,
    /// How many reads were made, the interrupted ones too.
    pub made: usize,
    /// How many of them were interrupted.
    pub interrupted: usize,
}

impl<'a> FaultyReader<'a> {
    /// A reader of these bytes, of which no read was made.
    pub fn new(bytes: &'a [u8], interruptions: Interruptions, failing: usize) -> FaultyReader<'a> {
        FaultyReader {
            left: bytes,
            interruptions,
            failing,
            made: 0,
            interrupted: 0,
        }
    }

    // Whether the present read is interrupted.
    fn is_interrupted(&self) -> bool {
        match self.interruptions {
            Interruptions::Never => false,
            Interruptions::BeforeEach => self.made % 2 == 1,
            Interruptions::Always => true,
        }
    }
}

impl Read for FaultyReader<'_> {
    fn read(&mut self, buf: &mut [u8]) -> io::Result<usize> {
        self.made = self.made.saturating_add(1);
        if self.made == self.failing {
            return Err(io::Error::from(ErrorKind::ConnectionReset));
        }
        if self.is_interrupted() {
            self.interrupted = self.interrupted.saturating_add(1);
            return Err(io::Error::from(ErrorKind::Interrupted));
        }
        if self.left.is_empty() || buf.is_empty() {
            return Ok(0);
        }
        buf[0] = self.left[0];
        self.left = &self.left[1..];
        Ok(1)
    }
}

/// What a write without room does.
#[derive(Clone, Copy)]
pub enum WithoutRoom {
    /// It fails.
    Fails,
    /// It is interrupted.
    IsInterrupted,
    /// It takes nothing.
    TakesNothing,
}

/// Takes one byte for each write, as long as there is room.
#[derive(Drop)]
pub struct FaultyWriter {
    /// The bytes that were taken.
    pub taken: Vec<u8>,
    room: usize,
    without_room: WithoutRoom,
    /// How many writes were made.
    pub made: usize,
}

impl FaultyWriter {
    /// A writer with room for so many bytes, of which no write was made.
    pub fn new(alloc: Global, room: usize, without_room: WithoutRoom) -> FaultyWriter {
        FaultyWriter {
            taken: Vec::new(alloc),
            room,
            without_room,
            made: 0,
        }
    }
}

impl Write for FaultyWriter {
    fn write(&mut self, buf: &[u8]) -> io::Result<usize> {
        self.made = self.made.saturating_add(1);
        if self.taken.len() >= self.room {
            return written_without_room(self.without_room);
        }
        if buf.is_empty() {
            return Ok(0);
        }
        self.taken.push(buf[0])?;
        Ok(1)
    }

    fn flush(&mut self) -> io::Result<()> {
        Ok(())
    }
}

// The result of a write without room.
fn written_without_room(without_room: WithoutRoom) -> io::Result<usize>
    ensures { IfOk result (λ n. n ≡ 0) }
{
    match without_room {
        WithoutRoom::Fails => Err(io::Error::from(ErrorKind::ConnectionReset)),
        WithoutRoom::IsInterrupted => Err(io::Error::from(ErrorKind::Interrupted)),
        WithoutRoom::TakesNothing => Ok(0),
    }
}
