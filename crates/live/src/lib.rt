// Live (document 01): of several values of one singular field the last is live, of entries of one map with equal keys the last;
// all repeated and unknown values are live.
#![tactic(auto)]

ghost use Rattle.std.specs.Prelude.{◌≡◌, true, List, ℕ, ◌+◌, ◌*◌, ◌≤◌, ◌<◌, length};
ghost use Rattle.definitions.specs.Scope.{within};
ghost use Rattle.definitions.specs.Nodes as table;
ghost use Rattle.definitions.specs.Validity.{field_fits};
ghost use Rattle.definitions.specs.Live as spec;
ghost use Rattle.nodes.specs.Span.{There, Sound};
ghost use Rattle.live.specs.Live.{Kept, Pair, Entry, Mapped, sharing_of, key_at, key_in, live_at};

use definitions::{Node, Want, kinds, labels};
use nodes::{Siblings, node};
use records::Schema;

// How values of a rank live beside each other.
#[derive(Clone, Copy)]
enum Sharing {
    Last,
    LastOfKey,
    All,
}

// How values of a node's rank do.
fn sharing_at(schema: &Schema, w: Want, n: Node) -> Sharing
    requires { There schema.now.image.now (within w) × (field_fits schema.now.image.now (within w) n ≡ true) }
    ensures { result ≡ sharing_of (spec.sharing schema.now.image.now (within w) (spec.rank_of n)) }
{
    if w.kind == kinds::ENTRY {
        return Sharing::Last;
    }
    if n.is_unknown() {
        return Sharing::All;
    }
    match schema.field(n.field as usize).label {
        labels::REPEATED => Sharing::All,
        labels::MAP => Sharing::LastOfKey,
        _ => Sharing::Last,
    }
}

// Two values are the same: numbers, or bytes wherever they lie in the pool.
#[tactic(auto, unfolding(definitions::specs::Live::same_val, definitions::specs::Live::value_of))]
fn same_value(pool: &[u8], a: Node, b: Node) -> bool
    requires { Kept pool.now a × Kept pool.now b }
    ensures { result ≡ spec.same_val (spec.value_of pool.now a) (spec.value_of pool.now b) }
{
    if a.is_run() {
        return b.is_run() && records::same(a.run(pool), b.run(pool));
    }
    if b.is_run() {
        return false;
    }
    if a.nests() {
        return b.nests();
    }
    !b.nests() && a.number() == b.number()
}

// The key of entry `i`: its first child, or its second.
fn key(nodes: &[u32], i: usize) -> Node
    requires { Pair nodes.now i }
    ensures { result ≡ table.node_at nodes.now (key_at nodes.now i) }
{
    let first = node(nodes, i + 1);
    if first.field == 0 {
        return first;
    }
    node(nodes, first.end as usize)
}

// Two entries have equal keys.
fn same_key(nodes: &[u32], pool: &[u8], i: usize, j: usize) -> bool
    requires { Entry nodes.now pool.now i × Entry nodes.now pool.now j }
    ensures { result ≡ spec.same_val (key_in nodes.now pool.now j) (key_in nodes.now pool.now i) }
{
    same_value(pool, key(nodes, j), key(nodes, i))
}

// A value of that rank stands among the siblings from `from` up to `to`, whatever the pool holds.
pub fn has(nodes: &[u32], rank: usize, from: usize, to: usize) -> bool
    requires { (table.tiles nodes.now from to ≡ true) × (5 * to ≤ length nodes.now) }
    ensures { (pool : List ℕ) → result ≡ spec.has rank (spec.tree_of pool (table.forest nodes.now from to)) }
{
    Siblings::of(nodes, from, to).any(|(_, n)| n.rank() == rank)
}

// An entry of that rank with the key of entry `i` stands among the siblings from `from` up to `to`.
fn has_key(nodes: &[u32], pool: &[u8], rank: usize, i: usize, from: usize, to: usize) -> bool
    requires { Entry nodes.now pool.now i × Mapped pool.now nodes.now rank from to }
    ensures { result ≡ spec.has_key rank (key_in nodes.now pool.now i) (spec.tree_of pool.now (table.forest nodes.now from to)) }
{
    // Kept: a loop, whose invariant knows that each sibling of the rank is an entry; the closure of `any` would need a walk of its own for that.
    for (j, n) in Siblings::of(nodes, from, to) {
        if n.rank() == rank && same_key(nodes, pool, i, j) {
            return true;
        }
    }
    false
}

// Node `i` of the span up to `e`, in the scope inside `w`, is not replaced by a later sibling.
#[inline(always)]
pub fn is_live(schema: &Schema, nodes: &[u32], pool: &[u8], w: Want, i: usize, e: usize) -> bool
    requires { There schema.now.image.now (within w) × Sound schema.now.image.now pool.now (within w) nodes.now i e × (i < e) }
    ensures { result ≡ live_at schema.now.image.now pool.now (within w) nodes.now i e }
{
    let n = node(nodes, i);
    let next = n.end as usize;
    match sharing_at(schema, w, n) {
        Sharing::Last => !has(nodes, n.rank(), next, e),
        Sharing::LastOfKey => !has_key(nodes, pool, n.rank(), i, next, e),
        Sharing::All => true,
    }
}
