// What is printed: a span of siblings of a valid table.
ghost use Rattle.std.proofs.Props.{props};
ghost use Rattle.print.specs.Printable.{Printable, there-prop};

use definitions::Want;
use fields::Style;
use records::Schema;

// A span of nodes that stand in the scope inside `w`, to be printed at a depth.
#[derive(Clone, Copy)]
pub struct Body<'a> {
    pub schema: &'a Schema<'a>,
    pub nodes: &'a [u32],
    pub pool: &'a [u8],
    pub style: Style,
    pub w: Want,
    pub depth: usize,
    pub from: usize,
    pub to: usize,
    pub ghost printable: { Printable schema.now.image.now pool.now nodes.now w depth from to } by { Prim.hlevel (there-prop, props) },
}
