// i32, i64, u32 and u64.
#![tactic(auto)]

ghost use Rattle.std.specs.Prelude.{◌≤◌, length};
ghost use Rattle.definitions.specs.Refusals.{most_text};
ghost use Rattle.definitions.specs.Tokens.{token};
ghost use Rattle.definitions.specs.Reading.{integer_tok, unsigned, signed_value};
ghost use Rattle.lexer.specs.Steps.{line_at};
ghost use Rattle.leaves.specs.Answers.{Fair, Holds, OnLine, Reached, AnswersHere, signed_width, unsigned_width};

use definitions::refusals::Refusal;
use definitions::{Refused, Spot, Token, Want, tokens};
use leaves::{Position, most_signed, most_unsigned, put_number};
use lexer::{ClassTable, Cursor};

// An integer's token: decimal, octal or hex, of at most `most`.
fn read_integer(
    text: &[u8],
    w: Want,
    negative: bool,
    most: u64,
    q: Spot,
    t: Token,
    after: Cursor,
    nodes: &mut [u32],
) -> Result<Position, Refused>
    requires { Holds w q × Reached text.now t after.at × OnLine text.now after }
    ensures { AnswersHere (line_at text.now) nodes.old nodes.new q (integer_tok text.now w negative most q (token t after.at)) result }
{
    if t.kind != tokens::INTEGER {
        return Err(Refusal::OtherExpected.at(t.start));
    }
    let from = t.start.offset;
    let to = after.at;
    let Some(v) = integers::integer(&text[from..to], negative, most) else {
        return Err(Refusal::Overflow.at(t.start));
    };
    Ok(put_number(w, q, after, v, nodes))
}

// u32, u64: an integer.
pub fn read_unsigned(
    text: &[u8],
    table: &ClassTable,
    w: Want,
    here: Position,
    nodes: &mut [u32],
) -> Result<Position, Refused>
    requires { Fair text.now here × Holds w here.spot × (length text.now ≤ most_text) }
    ensures { AnswersHere (line_at text.now) nodes.old nodes.new here.spot (unsigned text.now w (unsigned_width w.kind) here.spot) result }
{
    let (t, after) = here.cursor().next(text, table)?;
    let most = most_unsigned(w.kind);
    read_integer(text, w, false, most, here.spot, t, after, nodes)
}

// i32, i64: an integer, or `-` and an integer.
// Kept: two readers, since only signed types look for a minus; what they share is `read_integer`.
pub fn read_signed(
    text: &[u8],
    table: &ClassTable,
    w: Want,
    here: Position,
    nodes: &mut [u32],
) -> Result<Position, Refused>
    requires { Fair text.now here × Holds w here.spot × (length text.now ≤ most_text) }
    ensures { AnswersHere (line_at text.now) nodes.old nodes.new here.spot (signed_value text.now w (signed_width w.kind) here.spot) result }
{
    let (t, after) = here.cursor().next(text, table)?;
    if t.kind != tokens::MINUS {
        let most = most_signed(w.kind, false);
        return read_integer(text, w, false, most, here.spot, t, after, nodes);
    }
    let digits = here.moved(after);
    let (d, end) = digits.cursor().next(text, table)?;
    let most = most_signed(w.kind, true);
    read_integer(text, w, true, most, digits.spot, d, end, nodes)
}
