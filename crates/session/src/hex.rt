// Bytes spelled in lower-case hex, two digits a byte, or `-` for none.
ghost use Rattle.std.specs.Prelude.{◌<◌, IfSome};

// A digit's value.
//
// Kept: `to_digit` takes upper-case letters too.
fn value(digit: u8) -> Option<u8>
    ensures { IfSome result (λ v. v < 16) }
{
    match digit {
        b'0'..=b'9' => Some(digit - b'0'),
        b'a'..=b'f' => Some(digit - b'a' + 10),
        _ => None,
    }
}

// The bytes that s spells, put at its front.
pub(crate) fn decode(s: &mut [u8]) -> Option<&[u8]> {
    if let [b'-'] = s {
        return Some(&[]);
    }
    if s.is_empty() || s.len() % 2 == 1 {
        return None;
    }
    let n = s.len() / 2;
    for i in 0..n {
        s[i] = value(s[2 * i])? * 16 + value(s[2 * i + 1])?;
    }
    Some(&s[..n])
}
