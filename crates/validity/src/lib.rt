// When a table is valid (document 01, "Node table"): one walk, in which no word is trusted before it is checked.
#![tactic(auto)]

ghost use Rattle.std.specs.Prelude.{◌≡◌, true, ◌+◌, ◌*◌, ◌≤◌, ◌<◌, length};
ghost use Rattle.definitions.specs.Image.{message_count};
ghost use Rattle.definitions.specs.Scope.{within};
ghost use Rattle.definitions.specs.Nodes.{tiles, forest};
ghost use Rattle.definitions.specs.Validity as good;
ghost use Rattle.nodes.specs.Span.{There, FieldsAre, node_good, span_good};

use definitions::kinds::words;
use definitions::limits::{MOST_DEPTH, MOST_NODES, MOST_NUMBER, NODE_WORDS};
use definitions::{Node, Span, Want, kinds};
use nodes::{fields_of, node, root_want, table_end, want};
use records::Schema;
use utf8::is_utf8;

// Numbers lie in their type's range: i32 and enum sign-extended, u32 and kind 11 below 2^32, bool 0 or 1, the others any.
#[tactic(auto, unfolding(definitions::specs::Validity::in_range))]
fn in_range(n: Node) -> bool
    ensures { result ≡ good.in_range n.kind n }
{
    match n.kind {
        words::I32 | words::ENUM => {
            if n.low <= i32::MAX as u32 {
                n.high == 0
            } else {
                n.high == u32::MAX
            }
        }
        words::U32 | words::UNKNOWN_U32 => n.high == 0,
        words::BOOL => n.high == 0 && n.low <= 1,
        _ => true,
    }
}

// Strings, bytes and kind 13 lie inside the pool, and strings are UTF-8.
#[tactic(auto, unfolding(definitions::specs::Validity::run_good))]
fn run_good(pool: &[u8], n: Node) -> bool
    ensures { result ≡ good.run_good pool.now n }
{
    n.high as usize + n.low as usize <= pool.len()
        && (n.kind != words::STRING || is_utf8(n.run(pool)))
}

// Messages and entries have 0, 0.
#[tactic(auto, unfolding(definitions::specs::Validity::value_good))]
fn value_good(pool: &[u8], n: Node) -> bool
    ensures { result ≡ good.value_good pool.now n }
{
    if n.nests() {
        n.high == 0 && n.low == 0
    } else if n.is_run() {
        run_good(pool, n)
    } else {
        in_range(n)
    }
}

// Fields are their scope's, of which `own` are all, and kinds match them; unknown kinds stand in messages only, under numbers 1 to
// 536,870,911.
fn field_fits(schema: &Schema, own: Span, w: Want, n: Node) -> bool
    requires { There schema.now.image.now (within w) × FieldsAre schema.now.image.now (within w) own }
    ensures { result ≡ good.field_fits schema.now.image.now (within w) n }
{
    let i = n.field as usize;
    if n.is_unknown() {
        return w.kind != kinds::ENTRY && (1 <= i && i <= MOST_NUMBER);
    }
    own.first <= i && (i - own.first < own.count && n.kind == u32::from(want(schema, w, i).kind))
}

// Node `i` of a span up to `to`, but for what lies below it: its end lies in the span, its field and value are good, and a node that is no
// message and no entry has none below it.
#[tactic(auto, unfolding(nodes::specs::Span::node_good))]
fn node_good(schema: &Schema, pool: &[u8], own: Span, w: Want, n: Node, i: usize, to: usize) -> bool
    requires { There schema.now.image.now (within w) × FieldsAre schema.now.image.now (within w) own }
    ensures { result ≡ node_good schema.now.image.now pool.now (within w) i to n }
{
    let end = n.end as usize;
    i < end
        && end <= to
        && field_fits(schema, own, w, n)
        && value_good(pool, n)
        && (n.nests() || end <= i + 1)
}

// An entry has two children in either order, one with field 0 (the key), one with field 1 (the value).
fn is_pair(nodes: &[u32], i: usize, e: usize) -> bool
    requires { (tiles nodes.now i e ≡ true) × (5 * e ≤ length nodes.now) }
    ensures { result ≡ good.is_pair (forest nodes.now i e) }
{
    if e <= i {
        return false;
    }
    let a = node(nodes, i);
    let next = a.end as usize;
    if e <= next {
        return false;
    }
    let b = node(nodes, next);
    if (b.end as usize) < e {
        return false;
    }
    match a.field {
        0 => b.field == 1,
        1 => b.field == 0,
        _ => false,
    }
}

// The children of an entry are a pair.
fn entry_good(nodes: &[u32], kind: u32, i: usize, e: usize) -> bool
    requires { (tiles nodes.now i e ≡ true) × (5 * e ≤ length nodes.now) }
    ensures { result ≡ good.entry_good kind (forest nodes.now i e) }
{
    kind != words::ENTRY || is_pair(nodes, i, e)
}

// The nodes from `from` up to `to` tile the span and are good in the scope inside `w`, at most `left` messages and entries deep.
fn span_good(
    schema: &Schema,
    nodes: &[u32],
    pool: &[u8],
    w: Want,
    left: usize,
    from: usize,
    to: usize,
) -> bool
    requires { There schema.now.image.now (within w) × (from ≤ to) × (5 * to ≤ length nodes.now) }
    ensures { result ≡ span_good schema.now.image.now pool.now (within w) left nodes.now from to }
{
    let own = fields_of(schema, w);
    let mut i = from;
    // Kept: the next sibling is where this one ends, and no end is trusted before `node_good` says so: no index is counted.
    while i < to {
        let n = node(nodes, i);
        let end = n.end as usize;
        if !node_good(schema, pool, own, w, n, i, to) {
            return false;
        }
        if n.nests() {
            if left == 0 {
                return false;
            }
            let inner = want(schema, w, n.field as usize);
            if !span_good(schema, nodes, pool, inner, left - 1, i + 1, end) {
                return false;
            }
            if !entry_good(nodes, n.kind, i + 1, end) {
                return false;
            }
        }
        i = end;
    }
    true
}

// Node 0 is the root, and its end is the table's length.
#[tactic(auto, unfolding(definitions::specs::Validity::root_good, definitions::specs::Nodes::table_end))]
fn root_good(nodes: &[u32]) -> bool
    ensures { result ≡ good.root_good nodes.now }
{
    if nodes.len() < NODE_WORDS {
        return false;
    }
    let n = node(nodes, 0);
    let end = n.end as usize;
    n.kind == words::MESSAGE
        && n.field == 0
        && n.high == 0
        && n.low == 0
        && 1 <= end
        && end <= MOST_NODES
        && NODE_WORDS * end <= nodes.len()
}

// A table is valid for the schema and root.
pub fn is_valid(schema: &Schema, root: usize, nodes: &[u32], pool: &[u8]) -> bool
    requires { root < message_count schema.now.image.now }
    ensures { result ≡ good.valid schema.now.image.now root nodes.now pool.now }
{
    root_good(nodes)
        && span_good(
            schema,
            nodes,
            pool,
            root_want(root),
            MOST_DEPTH,
            1,
            table_end(nodes),
        )
}
