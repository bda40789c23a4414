// What a person is told of a node table: how many live values it has, and the first required field that lacks. Any bytes may be
// handed in: where schema, root or table are refused (1, 2, 15), there are no values and nothing lacks.
#![tactic(auto)]

pub mod required;
mod scalars;

ghost use Rattle.std.specs.Prelude.{◌≡◌, true, false, MatchOption};
ghost use Rattle.records.specs.Known.{option_of};
ghost use Rattle.survey.specs.Survey as spec;

use crate::required::lacking;
use crate::scalars::count;
use nodes::{root_want, table_end};
use records::Schema;

// The schema, where neither it nor the root nor the table is refused.
fn taken<'a>(image: &'a [u8], root: usize, nodes: &[u32], pool: &[u8]) -> Option<Schema<'a>>
    ensures { MatchOption result (spec.taken image.now root nodes.now pool.now ≡ false) (λ schema. (spec.taken image.now root nodes.now pool.now ≡ true) × (schema.image.now ≡ image.now)) }
{
    let schema = schema::open(image)?;
    if schema.message_count() <= root {
        return None;
    }
    if !validity::is_valid(&schema, root, nodes, pool) {
        return None;
    }
    Some(schema)
}

// How many live values a table has: scalars, unknown ones among them, but for the keys of entries.
pub fn values(image: &[u8], root: usize, nodes: &[u32], pool: &[u8]) -> usize
    ensures { result ≡ spec.value_count image.now root nodes.now pool.now }
{
    let Some(schema) = taken(image, root, nodes, pool) else {
        return 0;
    };
    count(&schema, nodes, pool, root_want(root), 1, table_end(nodes))
}

// The first required field that lacks in a live message, root included, by its index in the whole field table: its own fields in
// table order first, then its live children in node order.
pub fn missing(image: &[u8], root: usize, nodes: &[u32], pool: &[u8]) -> Option<usize>
    ensures { result ≡ option_of (spec.missing_field image.now root nodes.now pool.now) }
{
    let schema = taken(image, root, nodes, pool)?;
    lacking(&schema, nodes, pool, root_want(root), 1, table_end(nodes))
}
