// Standard input, line by line.
ghost use Rattle.std.specs.Prelude.{◌≤◌};
ghost use Rattle.streams.specs.declared.lines.TheConstants.{INPUT_LENGTH};

use crate::line;
use std::io::Read;

pub const INPUT_LENGTH: usize = 16384;

// Where the input stands. Of its room the bytes from start to end are read and in no line yet; `count` lines were begun.
#[derive(Clone, Copy)]
pub struct Lines {
    rt: HostRuntime,
    room: [u8; INPUT_LENGTH],
    start: usize,
    end: usize,
    count: usize,
    is_over: bool,
    ghost ordered: { start ≤ end },
    ghost inside: { end ≤ INPUT_LENGTH },
}

// How many bytes of a line are in its room: all, or those for which there was room.
#[derive(Clone, Copy)]
pub enum Line {
    Whole(usize),
    Cut(usize),
}

impl Line {
    // The same line with these bytes behind it, as many as its room holds.
    fn with(self, bytes: &[u8], room: &mut [u8]) -> Line {
        let Line::Whole(length) = self else {
            return self;
        };
        let used = length.min(room.len());
        let n = line::copy(bytes, &mut room[used..]);
        if n < bytes.len() {
            Line::Cut(used + n)
        } else {
            Line::Whole(used + n)
        }
    }
}

impl Lines {
    // Before the first line.
    pub fn new(rt: HostRuntime) -> Lines {
        Lines {
            rt,
            room: [0; INPUT_LENGTH],
            start: 0,
            end: 0,
            count: 0,
            is_over: false,
        }
    }

    // The number of the line that `next` gave last, counted from 1.
    pub fn count(&self) -> usize {
        self.count
    }

    // Reads on, where no line ends in what was read before. What can't be read has ended.
    fn refill(&mut self) {
        self.start = 0;
        self.end = self.rt.stdin().read(&mut self.room).unwrap_or(0);
        self.is_over = self.end == 0;
    }

    // The next line, put into its room; none behind the end of the input, which ends the last one.
    //
    // Nothing says that the input ends, so the turns are counted up to a number that no run uses up.
    pub fn next(&mut self, room: &mut [u8]) -> Option<Line> {
        if self.is_over {
            return None;
        }
        self.count = self.count.wrapping_add(1);
        let mut line = Line::Whole(0);
        for _ in 0..u64::MAX {
            let unread = &self.room[self.start..self.end];
            let newline = unread.iter().position(|b| *b == b'\n');
            let n = newline.unwrap_or(unread.len());
            line = line.with(line::front(unread, n), room);
            if newline.is_some() {
                self.start += n + 1;
                return Some(line);
            }
            self.refill();
            if self.is_over {
                return Some(line);
            }
        }
        None
    }
}
