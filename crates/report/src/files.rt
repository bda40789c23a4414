// Files, read into a room: as much of them as it holds.
use crate::call::Asked;
use crate::failure::Failure;
use std::io::Read;
use std::{fmt, fs, io};
use streams::line;

// Why a file can't be read.
#[derive(Clone, Copy)]
pub enum Reason {
    NoFile,
    Directory,
    NoLeave,
    NoInput,
    Other,
}

// The system's numbers for what has a sentence of its own.
// Kept: numbers for all four, since no kind of the library's errors stands for EBADF, and one match is plainer than two.
const ENOENT: i32 = 2;

const EBADF: i32 = 9;

const EACCES: i32 = 13;

const EISDIR: i32 = 21;

impl From<io::Error> for Reason {
    fn from(error: io::Error) -> Reason {
        match error.raw_os_error() {
            Some(ENOENT) => Reason::NoFile,
            Some(EISDIR) => Reason::Directory,
            Some(EACCES) => Reason::NoLeave,
            Some(EBADF) => Reason::NoInput,
            _ => Reason::Other,
        }
    }
}

impl fmt::Display for Reason {
    fn fmt<W: fmt::Write>(&self, f: &mut fmt::Formatter<W>) -> fmt::Result {
        f.write_str(match self {
            Reason::NoFile => "no such file",
            Reason::Directory => "a directory, not a file",
            Reason::NoLeave => "it may not be read",
            Reason::NoInput => "standard input can't be read here",
            Reason::Other => "it can't be read",
        })
    }
}

// Nothing says that a file ends, so the turns are counted: each reads a byte or is the last.
fn fill<R: Read>(from: &mut R, room: &mut [u8]) -> Result<usize, Reason> {
    let mut n = 0;
    for _ in 0..room.len() {
        let count = from.read(&mut room[n..])?;
        if count == 0 {
            break;
        }
        n += count;
    }
    Ok(n)
}

// The file at a path, which has to be text; `-` is standard input, but for a script, whose calls stand there.
fn read(rt: HostRuntime, path: &[u8], room: &mut [u8], is_script: bool) -> Result<usize, Reason> {
    if path == b"-".as_slice() {
        if is_script {
            return Err(Reason::NoInput);
        }
        return fill(&mut rt.stdin(), room);
    }
    let Ok(text) = str::from_utf8(path) else {
        return Err(Reason::Other);
    };
    fill(&mut fs::open(&rt, text)?, room)
}

// The call's file of number k.
pub fn load<'a, 'r>(
    rt: HostRuntime,
    asked: &Asked<'a>,
    k: usize,
    room: &'r mut [u8],
) -> Result<&'r [u8], Failure<'a>> {
    let path = asked.file(k);
    match read(rt, path, room, asked.is_script) {
        Ok(n) => Ok(line::front(room, n)),
        Err(why) => Err(Failure::Unread(path, why)),
    }
}
