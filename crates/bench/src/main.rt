// Counts: a schema image and a text are read from standard input, and a word is written after each phase, so that what stands between
// two writes is the cost of a phase. The first three bytes are the image's length, the most significant first; the image follows, of
// which message 0 is the root, and then the text.
#![tactic(auto)]

ghost use Rattle.std.specs.Prelude.{◌≤◌, length};

mod phases;
mod rooms;

use std::io::Read;

fn main(rt: HostRuntime) {
    let mut input: rooms::Input = rooms::empty();
    let mut nodes: rooms::Nodes = rooms::empty();
    let mut pool: rooms::Pool = rooms::empty();
    let mut buffer: rooms::Buffer = rooms::empty();
    let n = fill(rt, &mut input);
    if let Some((image, text)) = parts(&input[..n]) {
        phases::all(rt, image, text, &mut nodes, &mut pool, &mut buffer);
    }
}

// Reads until the room is full, the input ends or can't be read. Nothing says that it ends, so the turns are counted: each reads a byte
// or is the last.
//
// Kept: not the `fill` of report, which tells why a read failed and not what came before.
fn fill(rt: HostRuntime, room: &mut [u8]) -> usize
    ensures { result ≤ length room.old }
{
    let mut n = 0;
    for _ in 0..room.len() {
        let count = rt.stdin().read(&mut room[n..]).unwrap_or(0);
        if count == 0 {
            break;
        }
        n += count;
    }
    n
}

// The image and the text, where the input has as many bytes as it says.
fn parts(input: &[u8]) -> Option<(&[u8], &[u8])> {
    let [high, middle, low, rest @ ..] = input else {
        return None;
    };
    let length = u32::from_be_bytes([0, *high, *middle, *low]);
    rest.split_at_checked(length as usize)
}
