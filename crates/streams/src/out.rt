// What is written, by way of a buffer.
ghost use Rattle.std.specs.Prelude.{◌≡◌, ◌≤◌};
ghost use Rattle.streams.specs.declared.out.TheConstants.{OUT_LENGTH};

use std::fmt;
use std::io::Write;

pub const OUT_LENGTH: usize = 16384;

// The buffer, of which the first `length` bytes are to be written yet, and the runtime by which they are written.
#[derive(Drop)]
pub struct Out {
    pub rt: HostRuntime,
    room: [u8; OUT_LENGTH],
    length: usize,
    ghost inside: { length ≤ OUT_LENGTH },
}

// Where a buffer goes.
#[derive(Clone, Copy)]
enum Stream {
    Output,
    Errors,
}

impl Out {
    // An empty buffer.
    pub fn new(rt: HostRuntime) -> Out {
        Out {
            rt,
            room: [0; OUT_LENGTH],
            length: 0,
        }
    }

    // Writes the buffer to a stream, and answers whether all of it was. Whatever was, it is empty then.
    fn write_to(&mut self, to: Stream) -> bool
        ensures { self.new.length ≡ 0 }
    {
        let bytes = &self.room[..self.length];
        let written = match to {
            Stream::Output => self.rt.stdout().write_all(bytes),
            Stream::Errors => self.rt.stderr().write_all(bytes),
        };
        self.length = 0;
        written.is_ok()
    }

    // Writes the buffer to standard output, and answers whether all of it was.
    pub fn flush(&mut self) -> bool {
        self.write_to(Stream::Output)
    }

    // The same to standard error.
    pub fn flush_errors(&mut self) -> bool {
        self.write_to(Stream::Errors)
    }

    // One byte; a full buffer is written first.
    pub fn byte(&mut self, b: u8) {
        if self.length == OUT_LENGTH {
            self.write_to(Stream::Output);
        }
        self.room[self.length] = b;
        self.length += 1;
    }

    pub fn bytes(&mut self, s: &[u8]) {
        for b in s {
            self.byte(*b);
        }
    }

    // Whatever has a text of its own, as a number has its decimal digits.
    pub fn print<D: fmt::Display + Drop>(&mut self, value: D) {
        // The buffer takes all, so nothing fails here: what can't be written, `flush` tells.
        let _ = fmt::Write::write(self, value);
    }
}

impl fmt::Write for Out {
    fn write_str(&mut self, s: &str) -> fmt::Result {
        self.bytes(s.as_bytes());
        Ok(())
    }
}
