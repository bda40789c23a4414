// A table carried from a newer schema to an older one: printed under the newer, and that text read under the older. Any bytes may be
// handed in: the call ends, and answers or refuses by a number of document 01.
#![tactic(auto)]

ghost use Rattle.std.specs.Prelude.{◌≡◌, length};
ghost use Rattle.definitions.specs.Print.{print_answer, print_buffer};
ghost use Rattle.fields.specs.Fields.{style_of};
ghost use Rattle.text_format.specs.Answers.{printed_of};
ghost use Rattle.carry.specs.Carry.{carry_answer, carry_nodes, carry_pool, Carriable, Carries};

use definitions::Refused;
use parse::Made;

// Which of the two calls refused, and what it refused.
#[derive(Clone, Copy)]
pub enum NotCarried {
    Print(Refused),
    Read(Refused),
}

// The print that is asked for.
fn print_as(
    pretty: bool,
    image: &[u8],
    root: usize,
    nodes: &[u32],
    pool: &[u8],
    buffer: &mut [u8],
) -> Result<usize, Refused>
    ensures answer { result ≡ printed_of (print_answer image.now (style_of pretty) root nodes.now pool.now (length buffer.old)) }
    ensures bytes { buffer.new ≡ print_buffer image.now (style_of pretty) root nodes.now pool.now buffer.old }
{
    if pretty {
        return text_format::print_pretty(image, root, nodes, pool, buffer);
    }
    text_format::print(image, root, nodes, pool, buffer)
}

// Prints a table of the newer schema into `buffer`, pretty or on one line, and reads that text under the older one into `into` and `bytes`.
//
// On success the answer is Ok(made): the first 5 * made.nodes words of `into` and the first made.bytes bytes of `bytes` hold what the
// text says under the older schema, and the rest of both is as it was. Err(Print(refused)) is a refusal of the print, as
// `text_format::print` has it: nothing is changed. Err(Read(refused)) is a refusal of the read, as `text_format::read` has it: `into` and
// `bytes` are as they were, and the text that was refused stands in `buffer`, so that the place of 4 to 12 is one there.
//
// Where the newer schema extends the older one, and the table is valid, with a name for every live field and enum number: if the older
// schema knows all of them and there is room, what was read are the same live values under the same names; if not, the read is refused 6
// or 7 at the first name that it lacks.
pub fn carry(
    pretty: bool,
    newer: &[u8],
    older: &[u8],
    root: usize,
    nodes: &[u32],
    pool: &[u8],
    buffer: &mut [u8],
    into: &mut [u32],
    bytes: &mut [u8],
) -> Result<Made, NotCarried>
    ensures answer { result ≡ carry_answer newer.now older.now (style_of pretty) root nodes.now pool.now (length buffer.old) (length into.old) (length bytes.old) }
    ensures buffer { buffer.new ≡ print_buffer newer.now (style_of pretty) root nodes.now pool.now buffer.old }
    ensures into { into.new ≡ carry_nodes newer.now older.now (style_of pretty) root nodes.now pool.now (length buffer.old) into.old (length bytes.old) }
    ensures bytes { bytes.new ≡ carry_pool newer.now older.now (style_of pretty) root nodes.now pool.now (length buffer.old) (length into.old) bytes.old }
    ensures demand { Carriable newer.now older.now root nodes.now pool.now (style_of pretty) (length buffer.old) → Carries newer.now older.now root nodes.now pool.now (style_of pretty) result buffer.new into.old into.new bytes.old bytes.new }
{
    let n = print_as(pretty, newer, root, nodes, pool, buffer).map_err(NotCarried::Print)?;
    text_format::read(older, root, &buffer[..n], into, bytes).map_err(NotCarried::Read)
}
