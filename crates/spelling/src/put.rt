// Bytes that are put into the lent buffer, as far as there is room.
ghost use Rattle.std.specs.Prelude.{[], ◌∷◌};
ghost use Rattle.spelling.specs.Written.{Written, Room};

use stores::{put, put_run};

pub fn put_byte(byte: u8, buffer: &mut [u8], at: usize) -> usize
    requires { Room at (byte ∷ []) }
    ensures { Written buffer.old at (byte ∷ []) buffer.new result }
{
    put(buffer, at, byte);
    at + 1
}

pub fn put_slice(text: &[u8], buffer: &mut [u8], at: usize) -> usize
    requires { Room at text.now }
    ensures { Written buffer.old at text.now buffer.new result }
{
    put_run(text, buffer, at);
    at + text.len()
}
