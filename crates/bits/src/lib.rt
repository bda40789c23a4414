// Bit fields, most significant first.
#![tactic(auto)]

ghost use Rattle.std.specs.Prelude.{◌≡◌, ◌+◌, ◌*◌, ◌/◌, ◌%◌, ◌^◌, ◌≤◌, ◌<◌, length};
ghost use Rattle.definitions.specs.Bits as field;

// The `count` bytes at `at`, as one number.
pub fn load(s: &[u8], at: usize, count: usize) -> u64
    requires { (count ≤ 8) × (at + count ≤ length s.now) }
    ensures { result ≡ field.bits s.now (8 * at) (8 * count) }
{
    let mut value: u64 = 0;
    for byte in &s[at..at + count] {
        value = value * 256 + u64::from(*byte);
    }
    value
}

// The `width` bits of a number that stand above its lowest `right`.
pub fn cut(value: u64, right: usize, width: usize) -> u64
    requires { (right < 64) × (width < 64) }
    ensures { result ≡ value / 2 ^ right % 2 ^ width }
{
    (value >> right) & ((1 << width) - 1)
}

// The field of `width` bits that begins at bit `at`.
pub fn bits(s: &[u8], at: usize, width: usize) -> u64
    requires { (width ≤ 57) × (at + width ≤ 8 * length s.now) }
    ensures { result ≡ field.bits s.now at width }
{
    let first = at / 8;
    let skip = at % 8;
    let count = (skip + width + 7) / 8;
    cut(load(s, first, count), 8 * count - skip - width, width)
}
