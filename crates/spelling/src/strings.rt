// Strings and bytes stand in `"`: \n \r \t \' \" \\ as escapes, other bytes 32 to 126 as they are, the rest as `\` and three octal digits.
ghost use Rattle.std.specs.Prelude.{[], ◌∷◌, ◌+◌, ◌/◌, ◌%◌};
ghost use Rattle.definitions.specs.Print.{slashed, quote_byte, quoted};
ghost use Rattle.spelling.specs.Written.{Written, Room};

use crate::put::put_byte;

fn put_slashed(letter: u8, buffer: &mut [u8], at: usize) -> usize
    requires { Room at (slashed letter) }
    ensures { Written buffer.old at (slashed letter) buffer.new result }
{
    let after = put_byte(b'\\', buffer, at);
    put_byte(letter, buffer, after)
}

fn put_octal(byte: u8, buffer: &mut [u8], at: usize) -> usize
    requires { Room at (92 ∷ (48 + byte / 64) ∷ (48 + byte / 8 % 8) ∷ (48 + byte % 8) ∷ []) }
    ensures { Written buffer.old at (92 ∷ (48 + byte / 64) ∷ (48 + byte / 8 % 8) ∷ (48 + byte % 8) ∷ []) buffer.new result }
{
    let first = put_byte(b'\\', buffer, at);
    let second = put_byte(48 + byte / 64, buffer, first);
    let third = put_byte(48 + byte / 8 % 8, buffer, second);
    put_byte(48 + byte % 8, buffer, third)
}

fn quote_byte_to(byte: u8, buffer: &mut [u8], at: usize) -> usize
    requires { Room at (quote_byte byte) }
    ensures { Written buffer.old at (quote_byte byte) buffer.new result }
{
    match byte {
        10 => put_slashed(b'n', buffer, at),
        13 => put_slashed(b'r', buffer, at),
        9 => put_slashed(b't', buffer, at),
        34 | 39 | 92 => put_slashed(byte, buffer, at),
        32..=126 => put_byte(byte, buffer, at),
        _ => put_octal(byte, buffer, at),
    }
}

pub fn print_str_to(s: &[u8], buffer: &mut [u8], at: usize) -> usize
    requires { Room at (quoted s.now) }
    ensures { Written buffer.old at (quoted s.now) buffer.new result }
{
    let mut after = put_byte(b'"', buffer, at);
    for b in s {
        after = quote_byte_to(*b, buffer, after);
    }
    put_byte(b'"', buffer, after)
}
