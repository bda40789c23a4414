// Integers (T, H): decimal, octal (`0` then octal digits), hex (`0x` or `0X` then digits).
#![tactic(auto)]

ghost use Rattle.std.specs.Prelude.{◌≡◌, false, ◌<◌, ◌≤◌, length};
ghost use Rattle.std.specs.Bool.{OnTrue};
ghost use Rattle.definitions.specs.Integers.{digit_value, hex_digit, hex_ahead, worth, integer_value, signed};
ghost use Rattle.integers.specs.Values.{greatest, integer_of};

// What a digit is worth: letters from 10 on, either case. A byte below `0` is worth 0.
#[tactic(auto, unfolding(definitions::specs::Integers::digit_value))]
fn digit_value(b: u8) -> u8
    ensures { result ≡ digit_value b }
{
    match b {
        b'a'.. => b - b'a' + 10,
        b'A'.. => b - b'A' + 10,
        _ => b.saturating_sub(b'0'),
    }
}

// `0` to `9`, `a` to `f`, `A` to `F`.
pub fn hex_digit(b: u8) -> bool
    ensures { result ≡ hex_digit b }
{
    matches!(b, b'0'..=b'9' | b'a'..=b'f' | b'A'..=b'F')
}

// `x` or `X`, and a hex digit after it.
#[tactic(auto, using(crate::proofs::Digits::ahead))]
fn hex_ahead(s: &[u8]) -> bool
    ensures test { result ≡ hex_ahead s.now }
    ensures long { OnTrue result (2 ≤ length s.now) }
{
    let [x, digit, ..] = s else {
        return false;
    };
    (*x == b'x' || *x == b'X') && hex_digit(*digit)
}

// Digits in a base. A value that passes 64 bits never comes back, so the reading stops there. What is worth `sure` at most takes any
// byte's digit.
// Kept: the test of `sure`, since the checked sum alone takes three instructions more for each digit.
pub fn worth(digits: &[u8], base: u64) -> Option<u64>
    requires { 0 < base }
    ensures { result ≡ integer_of false greatest (worth base 0 digits.now) }
{
    let sure = (u64::MAX - 255) / base;
    let mut n: u64 = 0;
    for b in digits {
        let d = u64::from(digit_value(*b));
        n = if n <= sure {
            n * base + d
        } else {
            n.checked_mul(base)?.checked_add(d)?
        };
    }
    Some(n)
}

// A magnitude as 64 bits in two's complement.
#[tactic(auto, unfolding(definitions::specs::Integers::signed))]
fn signed(negative: bool, v: u64) -> u64
    ensures { result ≡ signed negative v }
{
    if negative { v.wrapping_neg() } else { v }
}

// The magnitude of a whole integer, if 64 bits hold it: hex after `0x` or `0X`, else octal after `0`, else decimal.
fn magnitude(raw: &[u8]) -> Option<u64>
    ensures { result ≡ integer_of false greatest (integer_value raw.now) }
{
    let Some((first, digits)) = raw.split_first() else {
        return Some(0);
    };
    if *first != b'0' {
        return worth(raw, 10);
    }
    if hex_ahead(digits) {
        return worth(&raw[2..], 16);
    }
    worth(digits, 8)
}

// An integer of a type whose greatest magnitude is `most`, after a minus or not.
pub fn integer(raw: &[u8], negative: bool, most: u64) -> Option<u64>
    ensures { result ≡ integer_of negative most (integer_value raw.now) }
{
    let v = magnitude(raw)?;
    if most < v {
        return None;
    }
    Some(signed(negative, v))
}
