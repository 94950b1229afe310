//! The lines that a serve command prints.
//!
//! The last one is printed after clients were served, when it is too late to run out of memory. So room for both is
//! taken first.
ghost use Rattle.std.specs.Prelude.{◌≡◌, ◌≤◌, [], IfOk, string_bytes, string_capacity};
ghost use Rattle.vetd_program.specs.Serving.{listening_line, served_line};

use itoa::Buffer;
use std::alloc::{AllocError, Global};

/// The greatest number of bytes in the line that says how many clients were served: its words, and a number of at most
/// 10 digits.
const MOST_SERVED_BYTES: usize = 18;

/// The line that says at which port clients may connect, and room for the one that says how many were served.
pub struct ServeLines {
    pub listening: String,
    room: String,
}

impl Drop for ServeLines {
    fn drop(self) {
        let ServeLines {
            listening: _,
            room: _,
        } = self;
    }
}

impl ServeLines {
    /// The lines of a port. Fails only if memory runs out.
    pub fn of_port(alloc: Global, port: u16) -> Result<ServeLines, AllocError>
        ensures listening { IfOk result (λ lines. string_bytes lines.listening ≡ listening_line port) }
        ensures empty { IfOk result (λ lines. string_bytes lines.room ≡ []) }
        ensures room { IfOk result (λ lines. MOST_SERVED_BYTES ≤ string_capacity lines.room) }
    {
        let room = String::with_capacity(alloc, MOST_SERVED_BYTES)?;
        let listening = format!(in alloc; "listening on 127.0.0.1:{port}\n")?;
        Ok(ServeLines { listening, room })
    }

    /// The line that says how many clients were served. Takes no memory.
    pub fn served(&mut self, served: u32) -> &str
        requires empty { string_bytes self.old.room ≡ [] }
        requires room { MOST_SERVED_BYTES ≤ string_capacity self.old.room }
        ensures { result.now ≡ served_line served }
    {
        let mut digits = Buffer::new();
        let _ = self.room.push_str("served ");
        let _ = self.room.push_str(digits.format(served));
        let _ = self.room.push_str("\n");
        self.room.as_str()
    }
}
