// A node table's words, and the scopes that its nodes stand in: a message, or an entry of a map field.
#![tactic(auto)]

mod walk;

ghost use Rattle.std.specs.Prelude.{◌≡◌, ◌+◌, ◌*◌, ◌≤◌, length};
ghost use Rattle.definitions.specs.Scope as scope;
ghost use Rattle.definitions.specs.Nodes as table;
ghost use Rattle.definitions.specs.Reading.{root_want};
ghost use Rattle.nodes.specs.Span.{There, Inside, FieldsAre};

use definitions::{Field, Node, Span, Want, kinds, labels};
use records::Schema;
pub use walk::Siblings;

// The five words of node `i`.
pub fn node(nodes: &[u32], i: usize) -> Node
    requires { 5 * i + 5 ≤ length nodes.now }
    ensures { result ≡ table.node_at nodes.now i }
{
    let at = 5 * i;
    Node {
        kind: nodes[at],
        field: nodes[at + 1],
        high: nodes[at + 2],
        low: nodes[at + 3],
        end: nodes[at + 4],
    }
}

// Where the root ends: the table's length in nodes.
pub fn table_end(nodes: &[u32]) -> usize
    requires { 5 ≤ length nodes.now }
    ensures { result ≡ table.table_end nodes.now }
{
    node(nodes, 0).end as usize
}

// A field of a message: a map field asks for an entry of its own.
fn want_of(i: usize, field: Field) -> Want
    ensures { result ≡ scope.want_of i field }
{
    if field.label == labels::MAP {
        return Want {
            kind: kinds::ENTRY,
            reference: i,
            field: i,
        };
    }
    Want {
        kind: field.kind,
        reference: field.reference,
        field: i,
    }
}

// An entry's key or value.
fn want_in(field: Field, i: usize) -> Want
    ensures { result ≡ scope.want_in field i }
{
    if i == 0 {
        return Want {
            kind: field.key,
            reference: 0,
            field: 0,
        };
    }
    Want {
        kind: field.kind,
        reference: field.reference,
        field: 1,
    }
}

// What the field `i` of the scope inside `w` asks for.
pub fn want(schema: &Schema, w: Want, i: usize) -> Want
    requires { There schema.now.image.now (scope.within w) × Inside schema.now.image.now (scope.within w) i }
    ensures { result ≡ scope.want schema.now.image.now (scope.within w) i }
{
    if w.kind == kinds::ENTRY {
        return want_in(schema.field(w.reference), i);
    }
    want_of(i, schema.field(i))
}

// The fields of the scope inside `w`: those of its message, or an entry's key and value.
pub fn fields_of(schema: &Schema, w: Want) -> Span
    requires { There schema.now.image.now (scope.within w) }
    ensures { FieldsAre schema.now.image.now (scope.within w) result }
{
    if w.kind == kinds::ENTRY {
        return Span { first: 0, count: 2 };
    }
    schema.message(w.reference)
}

// What lies inside the root.
pub fn root_want(root: usize) -> Want
    ensures { result ≡ root_want root }
{
    Want {
        kind: kinds::MESSAGE,
        reference: root,
        field: 0,
    }
}
