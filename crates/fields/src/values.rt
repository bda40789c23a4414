// Values after `: `: numbers, bools, enum numbers by their names, strings and bytes.
ghost use Rattle.std.specs.Prelude.{◌<◌, ◌%◌};
ghost use Rattle.definitions.specs.Image.{enum_count, find_number};
ghost use Rattle.definitions.specs.Nodes.{word32};
ghost use Rattle.definitions.specs.Print.{member_text, number_text};
ghost use Rattle.spelling.specs.Written.{Written, Room};
ghost use Rattle.fields.specs.Fields.{Counted, Plain, bool_text, plain_text};

use definitions::kinds::words;
use definitions::{Node, Want};
use records::Schema;
use spelling::numbers::{print_decimal, print_signed};
use spelling::put::put_slice;
use spelling::strings::print_str_to;

// An enum's number by its name; an unnamed one prints `: 7`.
fn print_enum(schema: &Schema, index: usize, n: u64, buffer: &mut [u8], at: usize) -> usize
    requires { (index < enum_count schema.now.image.now) × Room at (member_text schema.now.image.now n (find_number schema.now.image.now index (n % word32))) }
    ensures { Written buffer.old at (member_text schema.now.image.now n (find_number schema.now.image.now index (n % word32))) buffer.new result }
{
    match lookup::find_number(schema, index, (n % 4294967296) as u32) {
        Some(i) => put_slice(schema.member_name(i), buffer, at),
        None => {
            let after = put_slice(b": ", buffer, at);
            print_signed(n, buffer, after)
        }
    }
}

fn print_bool(n: u64, buffer: &mut [u8], at: usize) -> usize
    requires { Room at (bool_text n) }
    ensures { Written buffer.old at (bool_text n) buffer.new result }
{
    if n == 0 {
        return put_slice(b"false", buffer, at);
    }
    put_slice(b"true", buffer, at)
}

#[tactic(auto, unfolding(definitions::specs::Print::number_text))]
#[inline(always)]
fn print_number(schema: &Schema, w: Want, kind: u32, n: u64, buffer: &mut [u8], at: usize) -> usize
    requires { Counted schema.now.image.now w kind × Room at (number_text schema.now.image.now w kind n) }
    ensures { Written buffer.old at (number_text schema.now.image.now w kind n) buffer.new result }
{
    match kind {
        words::I32 | words::I64 => print_signed(n, buffer, at),
        words::BOOL => print_bool(n, buffer, at),
        words::ENUM => print_enum(schema, w.reference, n, buffer, at),
        _ => print_decimal(n, buffer, at),
    }
}

// A value that holds no nodes.
#[inline(always)]
pub fn print_value(
    schema: &Schema,
    pool: &[u8],
    w: Want,
    n: Node,
    buffer: &mut [u8],
    at: usize,
) -> usize
    requires { Plain schema.now.image.now pool.now w n × Room at (plain_text schema.now.image.now pool.now w n) }
    ensures { Written buffer.old at (plain_text schema.now.image.now pool.now w n) buffer.new result }
{
    let after = put_slice(b": ", buffer, at);
    if n.is_run() {
        return print_str_to(n.run(pool), buffer, after);
    }
    print_number(schema, w, n.kind, n.number(), buffer, after)
}
