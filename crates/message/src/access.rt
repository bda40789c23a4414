// Access to a string or bytes value of a valid table (document 01, "Refusal numbers", 18).
ghost use Rattle.std.specs.Prelude.{◌≡◌, true};
ghost use Rattle.definitions.specs.Validity as good;
ghost use Rattle.message.specs.Value.{Lendable, value_run, lent_run};

use nodes::{node, table_end};

// Where a value lies in the pool.
#[derive(Clone, Copy)]
pub struct Run {
    pub start: usize,
    pub length: usize,
}

// The start and length of node `i`, if there is such a node and its kind is 6, 7 or 13.
pub fn value_run(nodes: &[u32], i: usize) -> Option<Run>
    requires { good.root_good nodes.now ≡ true }
    ensures { result ≡ value_run nodes.now i }
{
    if table_end(nodes) <= i {
        return None;
    }
    let n = node(nodes, i);
    if !n.is_run() {
        return None;
    }
    Some(Run {
        start: n.high as usize,
        length: n.low as usize,
    })
}

// The bytes of that value, lent from the pool alone; none where there is no value.
pub fn value_bytes<'a>(nodes: &[u32], pool: &'a [u8], i: usize) -> &'a [u8]
    requires { Lendable nodes.now pool.now }
    ensures { result.now ≡ lent_run nodes.now pool.now i }
{
    let Some(run) = value_run(nodes, i) else {
        return &pool[..0];
    };
    &pool[run.start..run.start + run.length]
}
