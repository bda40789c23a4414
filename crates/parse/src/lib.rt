// Reading a whole text: one set of functions for both passes. Over empty parts of the table and the pool they only count and find the
// first fault; then they store.
#![tactic(auto)]

ghost use Rattle.std.specs.Prelude.{◌≡◌, ◌≤◌, ◌<◌, length};
ghost use Rattle.definitions.specs.Refusals.{most_text};
ghost use Rattle.definitions.specs.Reading.{node_room};
ghost use Rattle.parse.specs.Whole.{read_of, fitted_read, fitted_nodes, fitted_pool};
ghost use Rattle.definitions.specs.Image.{message_count};

use bodies::read_root;
use definitions::Refused;
use definitions::limits::{MOST_NODES, NODE_WORDS};
use definitions::refusals::Refusal;
use leaves::{Source, put_body};
use lexer::ClassTable;
use nodes::root_want;
use records::Schema;
use strings::Escapes;

// How many nodes and pool bytes reading makes.
#[derive(Clone, Copy)]
pub struct Made {
    pub nodes: usize,
    pub bytes: usize,
}

// The nodes that so many words hold.
fn node_room(words: usize) -> usize
    ensures { result ≡ node_room words }
{
    (words / NODE_WORDS).min(MOST_NODES)
}

// A whole text: the first pass counts and finds the first fault, over empty parts of the table and the pool; the second stores.
pub fn read_text(
    schema: &Schema,
    root: usize,
    text: &[u8],
    nodes: &mut [u32],
    pool: &mut [u8],
) -> Result<Made, Refused>
    requires { (root < message_count schema.now.image.now) × (length text.now ≤ most_text) }
    ensures answer { result ≡ read_of (fitted_read schema.now.image.now root text.now (length nodes.old) (length pool.old)) }
    ensures table { nodes.new ≡ fitted_nodes schema.now.image.now root text.now nodes.old (length pool.old) }
    ensures bytes { pool.new ≡ fitted_pool schema.now.image.now root text.now (length nodes.old) pool.old }
{
    let table = ClassTable::new();
    let letters = Escapes::new();
    let source = Source {
        text,
        schema: *schema,
        table: &table,
        letters: &letters,
    };
    let counted = read_root(&source, root, &mut nodes[..0], &mut pool[..0])?;
    let made = Made {
        nodes: counted.spot.node,
        bytes: counted.spot.byte,
    };
    if node_room(nodes.len()) < made.nodes {
        return Err(Refusal::NodesShort.unplaced(made.nodes));
    }
    if pool.len() < made.bytes {
        return Err(Refusal::PoolShort.unplaced(made.bytes));
    }
    // It ends as the first pass did.
    let _ = read_root(&source, root, nodes, pool);
    put_body(nodes, 0, root_want(root), made.nodes);
    Ok(made)
}
