// The siblings of a span of nodes, one after the other.
ghost use Rattle.std.specs.Prelude.{◌≡◌, true, ◌*◌, ◌-◌, ◌≤◌, length};
ghost use Rattle.std.specs.Iterator.{at_most};
ghost use Rattle.definitions.specs.Nodes.{tiles};
ghost use Rattle.nodes.specs.Walk.{Steps};

use crate::node;
use definitions::Node;

// The siblings from `at` up to `end`, which tile the span.
#[derive(Drop)]
pub struct Siblings<'a> {
    pub nodes: &'a [u32],
    pub at: usize,
    pub end: usize,
    ghost tiled: { tiles nodes.now at end ≡ true },
    ghost room: { 5 * end ≤ length nodes.now },
}

impl<'a> Siblings<'a> {
    pub fn of(nodes: &'a [u32], from: usize, to: usize) -> Siblings<'a>
        requires { (tiles nodes.now from to ≡ true) × (5 * to ≤ length nodes.now) }
        ensures { (result.nodes.now ≡ nodes.now) × (result.at ≡ from) × (result.end ≡ to) }
    {
        Siblings {
            nodes,
            at: from,
            end: to,
        }
    }
}

// Each sibling with its index; the next one is where this one ends.
impl<'a> Iterator for Siblings<'a> {
    type Item = (usize, Node);

    ghost next_gives = { λ s r t. Steps s.nodes.now s.at s.end r t.nodes.now t.at t.end };

    ghost remaining = { λ s. at_most (s.end - s.at) };

    fn next(&mut self) -> Option<(usize, Node)> {
        let at = self.at;
        if self.end <= at {
            return None;
        }
        let n = node(self.nodes, at);
        self.at = n.end as usize;
        Some((at, n))
    }
}
