// The cycle of readers: a message or an entry is fields until its closer, and a field may hold a message or an entry (after the
// original's parse.rs, its names kept where the thing is the same).
#![tactic(auto)]

ghost use Rattle.std.specs.Prelude.{◌≡◌, true, ◌<◌};
ghost use Rattle.definitions.specs.Scope.{want, within, nests};
ghost use Rattle.definitions.specs.Reading.{field, under, read_body, root_want};
ghost use Rattle.lexer.specs.Steps.{line_at};
ghost use Rattle.leaves.specs.Answers.{Fair, Fits, Holds, Answers, Inside, closer_for};
ghost use Rattle.definitions.specs.Image.{message_count};

use definitions::limits::MOST_DEPTH;
use definitions::refusals::Refusal;
use definitions::{Refused, Spot, Want, kinds, tokens};
use entries::{Entry, close_body, find_in};
use leaves::{Position, Source, put_body};
use lexer::Line;
use nodes::{root_want, want};
use scalars::read_colon;

// Kept: nodes and pool as two parameters: the pass that counts lends an empty part of each, so that a struct of both would be made for
// each pass and taken apart at each store.

// A field of a message or of an entry, after its name.
#[cycle(merge_field_read_message_read_value_of_type)]
fn merge_field(
    source: &Source,
    w: Want,
    i: usize,
    left: usize,
    here: Position,
    nodes: &mut [u32],
    pool: &mut [u8],
) -> Result<Position, Refused>
    requires { Fair source.now.text.now here × Fits source.now.schema.image.now w × Inside source.now.schema.image.now w i × (nests w.kind ≡ true) }
    ensures { Answers (line_at source.now.text.now) nodes.old nodes.new pool.old pool.new here.spot (field (under left source.now.schema.image.now source.now.text.now) source.now.schema.image.now source.now.text.now (want source.now.schema.image.now (within w) i) here.spot) result }
{
    let asked = want(&source.schema, w, i);
    read_value_of_type(source, asked, left, here, nodes, pool)
}

// `:` and a scalar; or `{` or `<`, fields and the matching closer. `left` is how many levels deeper it may go.
#[cycle(merge_field_read_message_read_value_of_type)]
fn read_value_of_type(
    source: &Source,
    w: Want,
    left: usize,
    here: Position,
    nodes: &mut [u32],
    pool: &mut [u8],
) -> Result<Position, Refused>
    requires { Fair source.now.text.now here × Holds w here.spot × Fits source.now.schema.image.now w }
    ensures { Answers (line_at source.now.text.now) nodes.old nodes.new pool.old pool.new here.spot (field (under left source.now.schema.image.now source.now.text.now) source.now.schema.image.now source.now.text.now w here.spot) result }
{
    if w.kind < kinds::MESSAGE {
        return read_colon(source, w, here, nodes, pool);
    }
    let (t, after) = source.next(here)?;
    let Some(closer) = closer_of(w.kind, t.kind) else {
        return Err(Refusal::OtherExpected.at(t.start));
    };
    if left == 0 {
        return Err(Refusal::TooDeep.at(t.start));
    }
    let mut inside = here.moved(after);
    inside.spot.node += 1;
    let next = read_message(source, w, closer, left - 1, inside, nodes, pool)?;
    put_body(nodes, here.spot.node, w, next.spot.node);
    Ok(next)
}

// The closer that matches an opener, `{` or for a message also `<`; no other token has one.
fn closer_of(kind: u8, opener: u8) -> Option<u8>
    ensures { result ≡ closer_for kind opener }
{
    match opener {
        tokens::OPEN_BRACE => Some(tokens::CLOSE_BRACE),
        tokens::OPEN_ANGLE if kind == kinds::MESSAGE => Some(tokens::CLOSE_ANGLE),
        _ => None,
    }
}

// Fields until the closer; an entry of a map gets its defaults there.
#[cycle(merge_field_read_message_read_value_of_type)]
fn read_message(
    source: &Source,
    w: Want,
    closer: u8,
    left: usize,
    mut here: Position,
    nodes: &mut [u32],
    pool: &mut [u8],
) -> Result<Position, Refused>
    requires { Fair source.now.text.now here × Fits source.now.schema.image.now w × (nests w.kind ≡ true) }
    ensures { Answers (line_at source.now.text.now) nodes.old nodes.new pool.old pool.new here.spot (read_body left source.now.schema.image.now source.now.text.now (within w) closer here.spot) result }
{
    let mut entry = Entry::EMPTY;
    let mut guess = 0;
    loop {
        let (t, after) = source.next(here)?;
        here = here.moved(after);
        if t.kind == closer {
            return close_body(&source.schema, w, left == 0, t.start, here, entry, nodes);
        }
        if t.kind != tokens::NAME {
            return Err(Refusal::OtherExpected.at(t.start));
        }
        let name = source.bytes_of(t, after);
        let Some(i) = find_in(&source.schema, w, guess, name) else {
            return Err(Refusal::UnknownField.at(t.start));
        };
        if entry.is_again(w, i) {
            return Err(Refusal::Twice.at(t.start));
        }
        here = merge_field(source, w, i, left, here, nodes, pool)?;
        guess = i;
        entry = entry.with(w, i);
    }
}

// The root's fields, up to the end of the text.
pub fn read_root(
    source: &Source,
    root: usize,
    nodes: &mut [u32],
    pool: &mut [u8],
) -> Result<Position, Refused>
    requires { root < message_count source.now.schema.image.now }
    ensures { Answers (line_at source.now.text.now) nodes.old nodes.new pool.old pool.new (record { at = 0; node = 1; byte = 0 }) (read_body 32 source.now.schema.image.now source.now.text.now (within (root_want root)) 0 (record { at = 0; node = 1; byte = 0 })) result }
{
    let start = Position {
        spot: Spot {
            at: 0,
            node: 1,
            byte: 0,
        },
        line: Line::FIRST,
    };
    let w = root_want(root);
    read_message(source, w, tokens::END, MOST_DEPTH, start, nodes, pool)
}
