// What an entry of a map lacks, as its default: 0, false, empty, the enum's first value, an empty message.
ghost use Rattle.std.specs.Prelude.{◌≡◌, ◌&&◌, ◌||◌, eqb, ◌≤◌, Ok};
ghost use Rattle.definitions.specs.Refusals.{most_text};
ghost use Rattle.definitions.specs.Scope.{string, byte_string, body};
ghost use Rattle.definitions.specs.Reading.{default, unless};
ghost use Rattle.leaves.specs.Answers.{Fits, Holds, AnswersUpTo};
ghost use Rattle.entries.specs.Noted.{Defaults};

use definitions::{Want, kinds};
use leaves::{Position, put_number, widened};
use records::Schema;

// Strings and bytes lie in the pool.
fn is_run(kind: u8) -> bool
    ensures { result ≡ (eqb kind string || eqb kind byte_string) }
{
    kind == kinds::STRING || kind == kinds::BYTES
}

// The 64 bits of a default's node: an empty run begins at a byte of the pool.
fn default_bits(schema: &Schema, w: Want, byte: usize) -> u64
    requires { Fits schema.now.image.now w × (byte ≤ most_text) }
    ensures { Defaults schema.now.image.now w byte result }
{
    if is_run(w.kind) {
        return (byte as u64) << 32;
    }
    if w.kind == kinds::ENUM {
        let e = schema.enumeration(w.reference);
        let m = schema.member(e.first);
        return widened(m.number);
    }
    0
}

// A missing key or value.
pub(crate) fn put_default(schema: &Schema, w: Want, here: Position, nodes: &mut [u32]) -> Position
    requires { Holds w here.spot × Fits schema.now.image.now w }
    ensures { AnswersUpTo (record { at = here.spot.at; line = here.line }) nodes.old nodes.new here.spot (default schema.now.image.now w here.spot) (Ok result) }
{
    let bits = default_bits(schema, w, here.spot.byte);
    put_number(w, here.spot, here.cursor(), bits, nodes)
}

// The default of what an entry does not have.
pub(crate) fn put_missing(
    there: bool,
    schema: &Schema,
    w: Want,
    here: Position,
    nodes: &mut [u32],
) -> Position
    requires { Holds w here.spot × Fits schema.now.image.now w }
    ensures { AnswersUpTo (record { at = here.spot.at; line = here.line }) nodes.old nodes.new here.spot (unless there (default schema.now.image.now w) here.spot) (Ok result) }
{
    if there {
        return here;
    }
    put_default(schema, w, here, nodes)
}

// A default message counts as a level.
pub(crate) fn is_too_deep(deep: bool, kind: u8) -> bool
    ensures { result ≡ (deep && eqb kind body) }
{
    deep && kind == kinds::MESSAGE
}
