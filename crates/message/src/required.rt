// The required check of a valid table (document 01, "Refusal numbers", 17): it descends message by message.
ghost use Rattle.std.specs.Prelude.{◌≡◌, true, ◌||◌, not, List, ℕ, ◌*◌, ◌≤◌, ◌<◌, length};
ghost use Rattle.definitions.specs.Image.{message_count, field_count, field, is_required};
ghost use Rattle.definitions.specs.Scope.{in_message, within};
ghost use Rattle.definitions.specs.Nodes.{tiles, forest};
ghost use Rattle.definitions.specs.Validity.{valid};
ghost use Rattle.definitions.specs.Live as live;
ghost use Rattle.definitions.specs.Required as spec;
ghost use Rattle.nodes.specs.Span.{There, Sound};

use definitions::{Want, kinds, labels};
use live::{has, is_live};
use nodes::{Siblings, root_want, table_end, want};
use records::Schema;

// The field is not required, or has a value among the siblings from `from` up to `to`, whatever the pool holds.
pub fn is_given(schema: &Schema, nodes: &[u32], i: usize, from: usize, to: usize) -> bool
    requires { (i < field_count schema.now.image.now) × (tiles nodes.now from to ≡ true) × (5 * to ≤ length nodes.now) }
    ensures { (pool : List ℕ) → result ≡ (not (is_required (field schema.now.image.now i)) || live.has i (live.tree_of pool (forest nodes.now from to))) }
{
    schema.field(i).label != labels::REQUIRED || has(nodes, i, from, to)
}

// Every required field of the message inside `w` has a value; an entry has none.
fn filled(schema: &Schema, nodes: &[u32], w: Want, from: usize, to: usize) -> bool
    requires { There schema.now.image.now (within w) × (tiles nodes.now from to ≡ true) × (5 * to ≤ length nodes.now) }
    ensures { (pool : List ℕ) → result ≡ spec.filled_in schema.now.image.now (within w) (live.tree_of pool (forest nodes.now from to)) }
{
    if w.kind == kinds::ENTRY {
        return true;
    }
    let run = schema.message(w.reference);
    let end = run.first + run.count;
    (run.first..end).all(|i| is_given(schema, nodes, i, from, to))
}

// The message or entry inside `w`, and every live one below, has its required fields.
fn is_complete(schema: &Schema, nodes: &[u32], pool: &[u8], w: Want, from: usize, to: usize) -> bool
    requires { There schema.now.image.now (within w) × Sound schema.now.image.now pool.now (within w) nodes.now from to }
    ensures { result ≡ spec.complete schema.now.image.now (within w) (live.canon schema.now.image.now (within w) (live.tree_of pool.now (forest nodes.now from to))) }
{
    if !filled(schema, nodes, w, from, to) {
        return false;
    }
    for (i, n) in Siblings::of(nodes, from, to) {
        if n.nests() && is_live(schema, nodes, pool, w, i, to) {
            let inner = want(schema, w, n.field as usize);
            if !is_complete(schema, nodes, pool, inner, i + 1, n.end as usize) {
                return false;
            }
        }
    }
    true
}

// No required field is missing in a live message, root included.
pub fn has_required(schema: &Schema, root: usize, nodes: &[u32], pool: &[u8]) -> bool
    requires { (root < message_count schema.now.image.now) × (valid schema.now.image.now root nodes.now pool.now ≡ true) }
    ensures { result ≡ spec.complete schema.now.image.now (in_message root) (live.meaning schema.now.image.now root nodes.now pool.now) }
{
    is_complete(schema, nodes, pool, root_want(root), 1, table_end(nodes))
}
