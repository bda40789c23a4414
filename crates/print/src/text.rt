// The print of a whole table.
ghost use Rattle.std.specs.Prelude.{◌≡◌, true, ◌<◌};
ghost use Rattle.definitions.specs.Image.{message_count};
ghost use Rattle.definitions.specs.Validity.{valid};
ghost use Rattle.definitions.specs.Print.{print_text};
ghost use Rattle.spelling.specs.Written.{Written};
ghost use Rattle.fields.specs.Fields.{styled};

use crate::body::print_to_internal;
use crate::span::Body;
use fields::Style;
use nodes::{root_want, table_end};
use records::Schema;

// The length of a valid table's text, which stands in the buffer as far as there is room.
pub fn print_text(
    schema: &Schema,
    style: Style,
    root: usize,
    nodes: &[u32],
    pool: &[u8],
    buffer: &mut [u8],
) -> usize
    requires { (root < message_count schema.now.image.now) × (valid schema.now.image.now root nodes.now pool.now ≡ true) }
    ensures { Written buffer.old 0 (print_text schema.now.image.now (styled style) root nodes.now pool.now) buffer.new result }
{
    let body = Body {
        schema,
        nodes,
        pool,
        style,
        w: root_want(root),
        depth: 0,
        from: 1,
        to: table_end(nodes),
    };
    print_to_internal(&body, buffer, 0)
}
