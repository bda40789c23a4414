// Escapes (T, H): what the bytes between the quotes of a string stand for.
#![tactic(auto)]

mod escapes;

ghost use Rattle.std.specs.Prelude.{◌≡◌, ℕ, Bool, ◌+◌, ◌<◌, ◌^◌, length, take};
ghost use Rattle.std.proofs.lemmas.List.Edits.{sets};
ghost use Rattle.definitions.specs.Integers.{octal_digit, worth};
ghost use Rattle.definitions.specs.Strings.{piece_of, up_to, escape_piece, first_piece, decode};
ghost use Rattle.fronts.specs.Computes.{Computes};
ghost use Rattle.strings.specs.Values.{told, decoded_of, decoded_front};

pub use escapes::{Escapes, Piece};
use fronts::front;
use integers::{hex_digit, worth};
use stores::{put, put_run};
use utf8::{WHOLE, step};

// What a whole string stands for: so many bytes, UTF-8 or not.
#[derive(Clone, Copy)]
pub struct Decoded {
    pub count: usize,
    pub utf8: bool,
}

// `0` to `7`.
fn octal_digit(b: u8) -> bool
    ensures { result ≡ octal_digit b }
{
    matches!(b, b'0'..=b'7')
}

// The digits at the front, `most` at most.
fn digits<P: Fn(u8) -> bool>(raw: &[u8], most: usize, is_digit: P) -> &[u8]
    requires { P.IsAlwaysCallable is_digit }
    ensures { (p : ℕ → Bool) → Computes P.Fn is_digit p → result.now ≡ take (up_to most p raw.now) raw.now }
{
    let most = most.min(raw.len());
    let count = front(&raw[..most], is_digit);
    &raw[..count]
}

// The piece of an escape by digits in a base, which takes `count` bytes: a value over 255 is refused.
fn digits_piece(digits: &[u8], base: u64, count: usize) -> Option<Piece>
    requires { 0 < base }
    ensures { result ≡ told (piece_of (worth base 0 digits.now) count) }
{
    let v = worth(digits, base)?;
    // Kept: the rule's number, which `u8::try_from(v).ok()?` would hide.
    if 255 < v {
        return None;
    }
    Some(Piece {
        byte: v as u8,
        count,
    })
}

// An escape, from the byte after its backslash on: octal digits, or `x` and hex digits, or a letter.
fn escape_piece(raw: &[u8], letters: &Escapes) -> Option<Piece>
    ensures { result ≡ told (escape_piece raw.now) }
{
    let (first, after) = raw.split_first()?;
    if octal_digit(*first) {
        let octal = digits(raw, 3, octal_digit);
        return digits_piece(octal, 8, 1 + octal.len());
    }
    if *first == b'x' {
        let hex = digits(after, 2, hex_digit);
        if hex.is_empty() {
            return None;
        }
        return digits_piece(hex, 16, 2 + hex.len());
    }
    letters.piece(*first)
}

// The first piece: an escape after a backslash, else the byte itself.
fn first_piece(b: u8, after: &[u8], letters: &Escapes) -> Option<Piece>
    ensures { result ≡ told (first_piece b after.now) }
{
    if b == b'\\' {
        return escape_piece(after, letters);
    }
    Some(Piece { byte: b, count: 1 })
}

// What stands between the quotes, piece by piece. Each byte goes to the next place of the pool from `at` on, where the pool has that
// place: lent an empty part it only counts. The answer is the count and whether the bytes are UTF-8. The plain bytes at the front are
// taken at once: after them the UTF-8 state is what it was before them.
pub fn decode(raw: &[u8], letters: &Escapes, pool: &mut [u8], at: usize) -> Option<Decoded>
    requires { at + length raw.now < 2 ^ 64 }
    ensures answer { result ≡ decoded_of (decode raw.now) }
    ensures stored { pool.new ≡ sets pool.old at (decoded_front raw.now) }
{
    let plain = front(raw, |b| b <= 127 && b != b'\\');
    put_run(&raw[..plain], pool, at);
    let mut u = WHOLE;
    let mut n = plain;
    let mut rest = &raw[plain..];
    while let Some((b, after)) = rest.split_first() {
        let piece = first_piece(*b, after, letters)?;
        put(pool, at + n, piece.byte);
        u = step(u, piece.byte);
        n += 1;
        rest = &rest[piece.count..];
    }
    Some(Decoded {
        count: n,
        utf8: u.left == 0,
    })
}
