// Values that are names: bool and enum.
ghost use Rattle.std.specs.Prelude.{◌≡◌};
ghost use Rattle.definitions.specs.Reading.{bool_value, enum_value};
ghost use Rattle.lexer.specs.Steps.{line_at};
ghost use Rattle.leaves.specs.Answers.{Fair, Fits, Holds, AnswersHere};

use definitions::refusals::Refusal;
use definitions::{Refused, Want, tokens};
use leaves::{Position, Source, put_number, widened};
use records::same;

// bool: `true` or `false`.
//
// Kept: `same`, since `==` of slices is a call: a text of bools takes 1.3 times the time to read.
pub(crate) fn read_bool(
    source: &Source,
    w: Want,
    here: Position,
    nodes: &mut [u32],
) -> Result<Position, Refused>
    requires { Fair source.now.text.now here × Holds w here.spot }
    ensures { AnswersHere (line_at source.now.text.now) nodes.old nodes.new here.spot (bool_value source.now.text.now w here.spot) result }
{
    let (t, after) = source.next(here)?;
    if t.kind != tokens::NAME {
        return Err(Refusal::NotBool.at(t.start));
    }
    let name = source.bytes_of(t, after);
    if same(b"true", name) {
        return Ok(put_number(w, here.spot, after, 1, nodes));
    }
    if same(b"false", name) {
        return Ok(put_number(w, here.spot, after, 0, nodes));
    }
    Err(Refusal::NotBool.at(t.start))
}

// An enum: the name of one of its values.
pub(crate) fn read_enum(
    source: &Source,
    w: Want,
    here: Position,
    nodes: &mut [u32],
) -> Result<Position, Refused>
    requires { Fair source.now.text.now here × Holds w here.spot × Fits source.now.schema.image.now w × (w.kind ≡ 8) }
    ensures { AnswersHere (line_at source.now.text.now) nodes.old nodes.new here.spot (enum_value source.now.schema.image.now source.now.text.now w here.spot) result }
{
    let (t, after) = source.next(here)?;
    if t.kind != tokens::NAME {
        return Err(Refusal::OtherExpected.at(t.start));
    }
    let name = source.bytes_of(t, after);
    let Some(i) = lookup::find_member(&source.schema, w.reference, name) else {
        return Err(Refusal::UnknownValue.at(t.start));
    };
    let m = source.schema.member(i);
    let v = widened(m.number);
    Ok(put_number(w, here.spot, after, v, nodes))
}
