// string and bytes.
ghost use Rattle.definitions.specs.Reading.{string_value};
ghost use Rattle.lexer.specs.Steps.{line_at};
ghost use Rattle.leaves.specs.Answers.{Fair, Holds, Answers};

use definitions::refusals::Refusal;
use definitions::{Node, Refused, Spot, Want, tokens};
use leaves::{Position, Source, is_broken, put};

// string, bytes: a string, its escapes decoded into the pool.
pub(crate) fn read_string(
    source: &Source,
    w: Want,
    here: Position,
    nodes: &mut [u32],
    pool: &mut [u8],
) -> Result<Position, Refused>
    requires { Fair source.now.text.now here × Holds w here.spot }
    ensures { Answers (line_at source.now.text.now) nodes.old nodes.new pool.old pool.new here.spot (string_value source.now.text.now w here.spot) result }
{
    let (t, after) = source.next(here)?;
    if t.kind != tokens::STRING {
        return Err(Refusal::OtherExpected.at(t.start));
    }
    let from = t.start.offset + 1;
    let to = after.at - 1;
    let q = here.spot;
    let Some(string) = strings::decode(&source.text[from..to], source.letters, pool, q.byte) else {
        return Err(Refusal::BadString.at(t.start));
    };
    if is_broken(w.kind, string.utf8) {
        return Err(Refusal::BadString.at(t.start));
    }
    let end = q.node + 1;
    put(
        nodes,
        q.node,
        Node {
            kind: u32::from(w.kind),
            field: w.field as u32,
            high: q.byte as u32,
            low: string.count as u32,
            end: end as u32,
        },
    );
    Ok(Position {
        spot: Spot {
            at: after.at,
            node: end,
            byte: q.byte + string.count,
        },
        line: after.line,
    })
}
