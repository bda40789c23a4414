// What numbers and strings may be: the greatest of each type, 32 bits as 64, and which strings are UTF-8.
ghost use Rattle.std.specs.Prelude.{◌≡◌, ◌&&◌, not, eqb};
ghost use Rattle.definitions.specs.Integers.{most_unsigned, most_signed};
ghost use Rattle.leaves.specs.Answers.{signed_width, unsigned_width};
ghost use Rattle.definitions.specs.Nodes.{widen};
ghost use Rattle.definitions.specs.Scope.{string};

use definitions::kinds;

// The greatest number of an unsigned type.
pub fn most_unsigned(kind: u8) -> u64
    ensures { result ≡ most_unsigned (unsigned_width kind) }
{
    if kind == kinds::U32 {
        u64::from(u32::MAX)
    } else {
        u64::MAX
    }
}

// The greatest number of a signed type, and its greatest magnitude after a minus.
pub fn most_signed(kind: u8, negative: bool) -> u64
    ensures { result ≡ most_signed (signed_width kind) negative }
{
    let most = if kind == kinds::I32 {
        i32::MAX as u64
    } else {
        i64::MAX as u64
    };
    most + u64::from(negative)
}

// 32 bits sign-extended to 64.
pub fn widened(v: u32) -> u64
    ensures { result ≡ widen v }
{
    i64::from(v.cast_signed()).cast_unsigned()
}

// A string that is not UTF-8; bytes may be anything.
pub fn is_broken(kind: u8, utf8: bool) -> bool
    ensures { result ≡ (eqb kind string && not utf8) }
{
    kind == kinds::STRING && !utf8
}
