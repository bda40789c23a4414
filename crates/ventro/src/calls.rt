// Calls: the program's arguments are one, or, for `script`, each line of standard input.
use report::rooms::Rooms;
use report::verdict::Verdict;
use std::env::{Env, FillError};
use std::fs::OpenOptions;
use std::io;
use std::io::Write;
use streams::line;
use streams::lines::{Line, Lines};
use streams::out::Out;

// The words of a call, and a script's line.
pub const CALL_LENGTH: usize = 65536;

// The descriptor that the verdict is written to, beside standard output and error: 3.
const VERDICT: &str = "/dev/fd/3";

// All arguments but the program's name, each ended by a zero byte: how much of the room they take, if they have room there.
fn arguments(rt: HostRuntime, room: &mut [u8]) -> Option<usize> {
    let mut at = 0;
    for i in 1..usize::MAX {
        match rt.arg(i, &mut room[at..]) {
            Ok(n) => {
                let end = at + n;
                *room.get_mut(end)? = 0;
                at = end + 1;
            }
            Err(FillError::NotPresent) => return Some(at),
            Err(FillError::TooLong) => return None,
        }
    }
    None
}

// Ends each word of a line with a zero byte, and the line too: zero for the blanks, tabs and returns that stand between words. Answers how
// long the call is.
fn cut(room: &mut [u8], length: usize) -> usize {
    let end = length.min(room.len());
    for b in &mut room[..end] {
        if *b <= b' ' {
            *b = 0;
        }
    }
    if end < room.len() {
        room[end] = 0;
        return end + 1;
    }
    end
}

// `> check v1.schema settings.txt`, the call that is answered next.
fn echo(out: &mut Out, line: &[u8]) {
    out.bytes(b"> ");
    out.bytes(line);
    out.byte(b'\n');
    out.flush();
}

// `= 1`, the verdict on it.
fn judge(out: &mut Out, verdict: Verdict) {
    let digit = verdict as u8;
    out.print(format_args!("= {digit}\n"));
    out.flush();
}

// Writes to the verdict's descriptor; where there is none, nothing.
fn put(rt: HostRuntime, bytes: &[u8]) -> io::Result<()> {
    let mut to = OpenOptions::new().append(true).open(&rt, VERDICT)?;
    to.write_all(bytes)
}

// Writes the verdict's digit.
pub fn tell(rt: HostRuntime, verdict: Verdict) {
    let _ = put(rt, &[b'0' + verdict as u8]);
}

// One line of a script; an empty one and one that begins with `#` are passed over, and one that went over its room is no call.
fn answered(out: &mut Out, call: &mut [u8], rooms: &mut Rooms, line: Line) -> Verdict {
    let (Line::Whole(length) | Line::Cut(length)) = line;
    let text = line::front(call, length);
    if text.is_empty() || text.starts_with(b"#") {
        return Verdict::Taken;
    }
    echo(out, text);
    let n = match line {
        Line::Whole(_) => cut(call, length),
        Line::Cut(_) => 0,
    };
    let verdict = console::run(out, line::front(call, n), rooms, true);
    judge(out, verdict);
    verdict
}

// The calls of standard input to its end, and the worst of their verdicts. Nothing says that the input ends, so the turns are counted
// up to a number that no run uses up.
fn script(out: &mut Out, call: &mut [u8], rooms: &mut Rooms) -> Verdict {
    let mut lines = Lines::new(out.rt);
    let mut worst = Verdict::Taken;
    for _ in 0..u64::MAX {
        let Some(line) = lines.next(call) else {
            break;
        };
        worst = worst.max(answered(out, call, rooms, line));
    }
    worst
}

// The call that the arguments are, or a script's. Arguments that go over their room are no call.
pub fn all(out: &mut Out, call: &mut [u8], rooms: &mut Rooms) -> Verdict {
    let n = arguments(out.rt, call).unwrap_or(0);
    let words = line::front(call, n);
    if words == b"script\0".as_slice() {
        return script(out, call, rooms);
    }
    console::run(out, words, rooms, false)
}
