// Numbers in decimal.
ghost use Rattle.std.specs.Prelude.{◌≡◌, length};
ghost use Rattle.definitions.specs.Print.{decimal, signed_decimal};
ghost use Rattle.spelling.specs.Written.{Written, Room};

use crate::put::put_byte;

// How many digits a number has: four are taken off at a time.
fn decimal_length(n: u64) -> usize
    ensures { result ≡ length (decimal n) }
{
    let mut more = 0;
    let mut left = n;
    // Kept: no index is counted, the number falls.
    while left >= 10000 {
        left = left / 10000;
        more += 4;
    }
    if left < 10 {
        return more + 1;
    }
    if left < 100 {
        return more + 2;
    }
    if left < 1000 {
        return more + 3;
    }
    more + 4
}

// The last digit is found first, and each goes to its place. Where the buffer has none of their places, they are only counted.
pub fn print_decimal(n: u64, buffer: &mut [u8], at: usize) -> usize
    requires { Room at (decimal n) }
    ensures { Written buffer.old at (decimal n) buffer.new result }
{
    let end = at + decimal_length(n);
    if buffer.len() <= at {
        return end;
    }
    let mut k = end - 1;
    let mut left = n;
    // Kept: the last digit is found first, so the place falls with the number.
    while left >= 10 {
        put_byte((48 + left % 10) as u8, buffer, k);
        k -= 1;
        left = left / 10;
    }
    put_byte((48 + left) as u8, buffer, k);
    end
}

// 64 bits in two's complement.
pub fn print_signed(n: u64, buffer: &mut [u8], at: usize) -> usize
    requires { Room at (signed_decimal n) }
    ensures { Written buffer.old at (signed_decimal n) buffer.new result }
{
    if n < 9223372036854775808 {
        return print_decimal(n, buffer, at);
    }
    let signed = put_byte(b'-', buffer, at);
    print_decimal(18446744073709551615 - n + 1, buffer, signed)
}
