// Nodes' words, stored where the table has room for them.
ghost use Rattle.std.specs.Prelude.{◌≡◌, ◌≤◌, ◌<◌, ◌+◌, Ok};
ghost use Rattle.definitions.specs.Refusals.{most_text};
ghost use Rattle.definitions.specs.Nodes.{words};
ghost use Rattle.definitions.specs.Reading.{number_leaf};
ghost use Rattle.leaves.specs.Answers.{put_at, Holds, AnswersUpTo};

use crate::Position;
use definitions::limits::NODE_WORDS;
use definitions::{Node, Spot, Want};
use lexer::Cursor;

// A node's five words, where the table has room for them.
pub fn put(nodes: &mut [u32], k: usize, n: Node)
    ensures { nodes.new ≡ put_at nodes.old k (words n) }
{
    if k < nodes.len() / NODE_WORDS {
        let at = k * NODE_WORDS;
        nodes[at] = n.kind;
        nodes[at + 1] = n.field;
        nodes[at + 2] = n.high;
        nodes[at + 3] = n.low;
        nodes[at + 4] = n.end;
    }
}

// A node with none below it: a number, up to a cursor.
// Kept: `as`, here and below, which is proved to lose nothing; `u32::try_from(..).unwrap()` says that in more words.
pub fn put_number(w: Want, q: Spot, to: Cursor, v: u64, nodes: &mut [u32]) -> Position
    requires { Holds w q }
    ensures { AnswersUpTo to nodes.old nodes.new q (number_leaf w q to.at v) (Ok result) }
{
    let end = q.node + 1;
    put(
        nodes,
        q.node,
        Node {
            kind: u32::from(w.kind),
            field: w.field as u32,
            high: (v >> 32) as u32,
            low: (v & u64::from(u32::MAX)) as u32,
            end: end as u32,
        },
    );
    Position {
        spot: Spot {
            at: to.at,
            node: end,
            ..q
        },
        line: to.line,
    }
}

// A node with others below it, up to the node `end`: a message or an entry.
pub fn put_body(nodes: &mut [u32], k: usize, w: Want, end: usize)
    requires { (w.field < 4096) × (end ≤ most_text + 3) }
    ensures { nodes.new ≡ put_at nodes.old k (words (record { kind = w.kind; field = w.field; high = 0; low = 0; end = end })) }
{
    put(
        nodes,
        k,
        Node {
            kind: u32::from(w.kind),
            field: w.field as u32,
            high: 0,
            low: 0,
            end: end as u32,
        },
    );
}
