// Numbers in decimal.

// The number that s spells: one digit or more, and at most 64 bits.
pub fn decimal(s: &[u8]) -> Option<usize> {
    if s.is_empty() {
        return None;
    }
    let mut n: usize = 0;
    for b in s {
        let digit = char::from(*b).to_digit(10)?;
        n = n.checked_mul(10)?.checked_add(digit as usize)?;
    }
    Some(n)
}
