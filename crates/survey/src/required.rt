// The first required field that lacks, in the order of the required check.
ghost use Rattle.std.specs.Prelude.{◌≡◌, true, List, length, ℕ, ◌*◌, ◌≤◌};
ghost use Rattle.definitions.specs.Scope.{within};
ghost use Rattle.definitions.specs.Nodes.{tiles, forest};
ghost use Rattle.definitions.specs.Live as live;
ghost use Rattle.records.specs.Known.{option_of};
ghost use Rattle.nodes.specs.Span.{There, Sound};
ghost use Rattle.survey.specs.Survey as spec;

use definitions::{Want, kinds};
use live::is_live;
use message::required::is_given;
use nodes::{Siblings, want};
use records::Schema;

// The first field that lacks of the message inside `w`; an entry has none.
fn lacking_in(schema: &Schema, nodes: &[u32], w: Want, from: usize, to: usize) -> Option<usize>
    requires { There schema.now.image.now (within w) × (tiles nodes.now from to ≡ true) × (5 * to ≤ length nodes.now) }
    ensures { (pool : List ℕ) → result ≡ option_of (spec.lacking_in schema.now.image.now (within w) (live.tree_of pool (forest nodes.now from to))) }
{
    if w.kind == kinds::ENTRY {
        return None;
    }
    let run = schema.message(w.reference);
    let end = run.first + run.count;
    (run.first..end).find(|i| !is_given(schema, nodes, *i, from, to))
}

// The first field that lacks in the message or entry inside `w`, or else in a live one below.
pub fn lacking(
    schema: &Schema,
    nodes: &[u32],
    pool: &[u8],
    w: Want,
    from: usize,
    to: usize,
) -> Option<usize>
    requires { There schema.now.image.now (within w) × Sound schema.now.image.now pool.now (within w) nodes.now from to }
    ensures { result ≡ option_of (spec.lacking schema.now.image.now (within w) (live.tree_of pool.now (forest nodes.now from to))) }
{
    let own = lacking_in(schema, nodes, w, from, to);
    if own.is_some() {
        return own;
    }
    for (i, n) in Siblings::of(nodes, from, to) {
        if n.nests() && is_live(schema, nodes, pool, w, i, to) {
            let inner = want(schema, w, n.field as usize);
            let below = lacking(schema, nodes, pool, inner, i + 1, n.end as usize);
            if below.is_some() {
                return below;
            }
        }
    }
    None
}
