// UTF-8, byte by byte (T; table 3-7 of the Unicode Standard: no surrogates, no overlong forms, at most U+10FFFF).
#![tactic(auto)]

ghost use Rattle.std.specs.Prelude.{◌≡◌};
ghost use Rattle.definitions.specs.Utf8.{await, lead, step, utf8};

use definitions::Utf8;
use fronts::front;

// Between two letters: the state that bytes begin in, and end in if they are UTF-8.
pub const WHOLE: Utf8 = Utf8 {
    left: 0,
    low: 128,
    high: 191,
};

// A byte is awaited that no byte is, so what has gone wrong stays wrong.
const BROKEN: Utf8 = Utf8 {
    left: 1,
    low: 1,
    high: 0,
};

// So many bytes are still to come, and the next one lies from low to high.
fn awaits(left: u8, low: u8, high: u8) -> Utf8
    ensures { result ≡ await left low high }
{
    Utf8 { left, low, high }
}

// The state after a letter's first byte: how many follow, and which the second may be.
// Kept: the test of a letter of one byte before the match, whose table of jumps costs each such byte six instructions more.
#[tactic(auto, unfolding(definitions::specs::Utf8::lead))]
fn lead(b: u8) -> Utf8
    ensures { result ≡ lead b }
{
    if b <= 127 {
        return WHOLE;
    }
    match b {
        194..=223 => awaits(1, 128, 191),
        224 => awaits(2, 160, 191),
        225..=236 | 238..=239 => awaits(2, 128, 191),
        237 => awaits(2, 128, 159),
        240 => awaits(3, 144, 191),
        241..=243 => awaits(3, 128, 191),
        244 => awaits(3, 128, 143),
        _ => BROKEN,
    }
}

// The state after one byte more.
#[tactic(auto, unfolding(definitions::specs::Utf8::step))]
pub fn step(u: Utf8, b: u8) -> Utf8
    ensures { result ≡ step u b }
{
    if u.left == 0 {
        return lead(b);
    }
    if u.low <= b && b <= u.high {
        return awaits(u.left - 1, 128, 191);
    }
    BROKEN
}

// The bytes are whole letters. Those of one byte at the front are passed first: after them the state is what it was before them.
pub fn is_utf8(s: &[u8]) -> bool
    ensures { result ≡ utf8 s.now }
{
    let plain = front(s, |b| b <= 127);
    let end = s[plain..].iter().fold(WHOLE, |u, b| step(u, *b));
    end.left == 0
}
