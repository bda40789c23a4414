// What stands around a field's value: compact puts one space before each field but the first of its message; pretty indents two
// spaces a level and ends each field with a newline.
ghost use Rattle.std.specs.Prelude.{◌++◌};
ghost use Rattle.definitions.specs.Scope.{within};
ghost use Rattle.definitions.specs.Print.{indent, lead, label, trail, opening, closing};
ghost use Rattle.nodes.specs.Span.{There};
ghost use Rattle.spelling.specs.Written.{Written, Room};
ghost use Rattle.fields.specs.Fields.{styled, Ranked};

use crate::Style;
use definitions::limits::FIRST_UNKNOWN;
use definitions::{Want, kinds};
use records::Schema;
use spelling::numbers::print_decimal;
use spelling::put::{put_byte, put_slice};

fn do_indent(depth: usize, buffer: &mut [u8], at: usize) -> usize
    requires { Room at (indent depth) }
    ensures { Written buffer.old at (indent depth) buffer.new result }
{
    let mut after = at;
    for _level in 0..depth {
        after = put_slice(b"  ", buffer, after);
    }
    after
}

#[tactic(auto, unfolding(definitions::specs::Print::lead))]
fn print_lead(style: Style, depth: usize, first: bool, buffer: &mut [u8], at: usize) -> usize
    requires { Room at (lead (styled style) depth first) }
    ensures { Written buffer.old at (lead (styled style) depth first) buffer.new result }
{
    match style {
        Style::Pretty => do_indent(depth, buffer, at),
        Style::Compact if first => at,
        Style::Compact => put_byte(b' ', buffer, at),
    }
}

// A field's name; an unknown field's number stands in its place.
#[inline(always)]
fn print_label(schema: &Schema, w: Want, rank: usize, buffer: &mut [u8], at: usize) -> usize
    requires { There schema.now.image.now (within w) × Ranked schema.now.image.now (within w) rank × Room at (label schema.now.image.now (within w) rank) }
    ensures { Written buffer.old at (label schema.now.image.now (within w) rank) buffer.new result }
{
    if rank >= FIRST_UNKNOWN {
        return print_decimal((rank - FIRST_UNKNOWN) as u64, buffer, at);
    }
    if w.kind != kinds::ENTRY {
        return put_slice(schema.field_name(rank), buffer, at);
    }
    if rank == 0 {
        return put_slice(b"key", buffer, at);
    }
    put_slice(b"value", buffer, at)
}

#[inline(always)]
pub fn print_start_field(
    schema: &Schema,
    w: Want,
    rank: usize,
    style: Style,
    depth: usize,
    first: bool,
    buffer: &mut [u8],
    at: usize,
) -> usize
    requires { There schema.now.image.now (within w) × Ranked schema.now.image.now (within w) rank × Room at (lead (styled style) depth first ++ label schema.now.image.now (within w) rank) }
    ensures { Written buffer.old at (lead (styled style) depth first ++ label schema.now.image.now (within w) rank) buffer.new result }
{
    let after = print_lead(style, depth, first, buffer, at);
    print_label(schema, w, rank, buffer, after)
}

#[tactic(auto, unfolding(definitions::specs::Print::trail))]
pub fn print_end_field(style: Style, buffer: &mut [u8], at: usize) -> usize
    requires { Room at (trail (styled style)) }
    ensures { Written buffer.old at (trail (styled style)) buffer.new result }
{
    match style {
        Style::Compact => at,
        Style::Pretty => put_byte(b'\n', buffer, at),
    }
}

// Messages and entries: `name {` body `}`; pretty has a newline after `{`, and `}` under the name.
#[tactic(auto, unfolding(definitions::specs::Print::opening))]
pub fn print_opening(style: Style, buffer: &mut [u8], at: usize) -> usize
    requires { Room at (opening (styled style)) }
    ensures { Written buffer.old at (opening (styled style)) buffer.new result }
{
    match style {
        Style::Compact => put_slice(b" {", buffer, at),
        Style::Pretty => put_slice(b" {\n", buffer, at),
    }
}

#[tactic(auto, unfolding(definitions::specs::Print::closing))]
pub fn print_closing(style: Style, depth: usize, buffer: &mut [u8], at: usize) -> usize
    requires { Room at (closing (styled style) depth) }
    ensures { Written buffer.old at (closing (styled style) depth) buffer.new result }
{
    let after = match style {
        Style::Compact => at,
        Style::Pretty => do_indent(depth, buffer, at),
    };
    put_byte(b'}', buffer, after)
}
