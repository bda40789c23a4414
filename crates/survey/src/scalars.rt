// The live scalars of a span of nodes, counted.
ghost use Rattle.std.specs.Prelude.{◌≡◌, eqb, ◌-◌, ◌≤◌};
ghost use Rattle.definitions.specs.Scope.{within, map_entry};
ghost use Rattle.definitions.specs.Nodes.{forest};
ghost use Rattle.definitions.specs.Live as live;
ghost use Rattle.nodes.specs.Span.{There, Sound};
ghost use Rattle.survey.specs.Survey as spec;

use definitions::{Node, Want, kinds};
use live::is_live;
use nodes::{Siblings, want};
use records::Schema;

// What a scalar inside `w` counts for: an entry's key for nothing.
#[tactic(auto, unfolding(crate::specs::Survey::weight))]
fn weight(w: Want, n: Node) -> usize
    ensures { result ≡ spec.weight (eqb w.kind map_entry) (live.rank_of n) }
{
    if w.kind == kinds::ENTRY && n.rank() == 0 {
        0
    } else {
        1
    }
}

// The live scalars of a span that stands inside `w`, and of what lies below it.
pub fn count(schema: &Schema, nodes: &[u32], pool: &[u8], w: Want, from: usize, to: usize) -> usize
    requires { There schema.now.image.now (within w) × Sound schema.now.image.now pool.now (within w) nodes.now from to }
    ensures amount { result ≡ spec.count (eqb w.kind map_entry) (live.canon schema.now.image.now (within w) (live.tree_of pool.now (forest nodes.now from to))) }
    ensures bound { result ≤ to - from }
{
    let mut sum = 0;
    for (i, n) in Siblings::of(nodes, from, to) {
        if is_live(schema, nodes, pool, w, i, to) {
            if n.nests() {
                let inner = want(schema, w, n.field as usize);
                sum += count(schema, nodes, pool, inner, i + 1, n.end as usize);
            } else {
                sum += weight(w, n);
            }
        }
    }
    sum
}
