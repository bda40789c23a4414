// Reading a value of a type that is no message (after the original's parse.rs, its names kept where the thing is the same).
// Words and bytes are stored where there is room for them, so over empty parts of the table and the pool the same functions only
// count and find the first fault.
#![tactic(auto)]

mod names;
mod runs;

ghost use Rattle.definitions.specs.Reading.{scalar, after_name};
ghost use Rattle.lexer.specs.Steps.{line_at};
ghost use Rattle.leaves.specs.Answers.{Fair, Fits, Holds, Answers};

use crate::names::{read_bool, read_enum};
use crate::runs::read_string;
use definitions::refusals::Refusal;
use definitions::{Refused, Want, kinds, tokens};
use leaves::{Position, Source};
use numbers::{read_signed, read_unsigned};

// A value of a type that is no message, from behind its colon on.
fn read_scalar(
    source: &Source,
    w: Want,
    here: Position,
    nodes: &mut [u32],
    pool: &mut [u8],
) -> Result<Position, Refused>
    requires { Fair source.now.text.now here × Holds w here.spot × Fits source.now.schema.image.now w }
    ensures { Answers (line_at source.now.text.now) nodes.old nodes.new pool.old pool.new here.spot (scalar source.now.schema.image.now source.now.text.now w here.spot) result }
{
    if w.kind < kinds::U32 {
        return read_signed(source.text, source.table, w, here, nodes);
    }
    if w.kind < kinds::BOOL {
        return read_unsigned(source.text, source.table, w, here, nodes);
    }
    if w.kind == kinds::BOOL {
        return read_bool(source, w, here, nodes);
    }
    if w.kind == kinds::ENUM {
        return read_enum(source, w, here, nodes);
    }
    read_string(source, w, here, nodes, pool)
}

// `:` and a value.
pub fn read_colon(
    source: &Source,
    w: Want,
    here: Position,
    nodes: &mut [u32],
    pool: &mut [u8],
) -> Result<Position, Refused>
    requires { Fair source.now.text.now here × Holds w here.spot × Fits source.now.schema.image.now w }
    ensures { Answers (line_at source.now.text.now) nodes.old nodes.new pool.old pool.new here.spot (after_name source.now.schema.image.now source.now.text.now w here.spot) result }
{
    let (t, after) = source.colon(here)?;
    if t.kind != tokens::COLON {
        return Err(Refusal::OtherExpected.at(t.start));
    }
    read_scalar(source, w, here.moved(after), nodes, pool)
}
