// The library's entry points. Any bytes may be handed in as schema, text, nodes or pool: every call ends, and answers or refuses by
// a number of document 01. A refused call changes no byte or word that it was lent.
#![tactic(auto)]

ghost use Rattle.std.specs.Prelude.{◌≡◌, length, MatchResult};
ghost use Rattle.definitions.specs.Reading.{read_answer, read_nodes, read_pool};
ghost use Rattle.definitions.specs.Print.{compact, pretty, print_answer, print_buffer};
ghost use Rattle.definitions.specs.Required.{required_answer};
ghost use Rattle.definitions.specs.Access.{value_answer, value_bytes};
ghost use Rattle.parse.specs.Whole.{read_of};
ghost use Rattle.fields.specs.Fields.{styled};
ghost use Rattle.text_format.specs.Answers.{table_barred, printed_of, checked_of, valued_of};
ghost use Rattle.text_format.specs.Opened.{root_barred, Barred, Rooted, Free};

use definitions::limits::MOST_TEXT;
use definitions::refusals::Refusal;
use definitions::{NO_PLACE, Refused};
pub use fields::Style;
pub use parse::Made;
use records::Schema;

// What bars every call: 1 a bad schema, 2 no such message.
fn open_root<'a>(image: &'a [u8], root: usize) -> Result<Schema<'a>, Refused>
    ensures { MatchResult result (λ schema. Rooted image.now root schema) (λ refused. Barred (root_barred image.now root) refused) }
{
    let Some(schema) = schema::open(image) else {
        return Err(Refusal::BadSchema.at(NO_PLACE));
    };
    if schema.message_count() <= root {
        return Err(Refusal::NoMessage.at(NO_PLACE));
    }
    Ok(schema)
}

// What bars every call over a table: the same, and 15 an invalid table.
fn open_table<'a>(
    image: &'a [u8],
    root: usize,
    nodes: &[u32],
    pool: &[u8],
) -> Result<Schema<'a>, Refused>
    ensures { MatchResult result (λ schema. Free image.now root nodes.now pool.now schema) (λ refused. Barred (table_barred image.now root nodes.now pool.now) refused) }
{
    let schema = open_root(image, root)?;
    if !validity::is_valid(&schema, root, nodes, pool) {
        return Err(Refusal::BadTable.at(NO_PLACE));
    }
    Ok(schema)
}

// Reads a text into a node table and a pool.
//
// `image` is the schema image, `root` the index of the text's message. On success the answer is Ok(made): the first 5 * made.nodes words
// of `nodes` and the first made.bytes bytes of `pool` hold what the text says, and the rest of both is as it was. A refusal, Err(refused),
// leaves both as they were. In order: 1 the image is no schema; 2 it has no such message; 3 the text is over 1,048,576 bytes; 4 to 12
// the first fault in reading order, at its offset, line and column; 13 too few words (the offset is the number of nodes needed); 14
// too small a pool (the offset is the number of bytes needed). But for 4 to 12 line and column are 0, here and in all calls below.
pub fn read(
    image: &[u8],
    root: usize,
    text: &[u8],
    nodes: &mut [u32],
    pool: &mut [u8],
) -> Result<Made, Refused>
    ensures answer { result ≡ read_of (read_answer image.now root text.now (length nodes.old) (length pool.old)) }
    ensures table { nodes.new ≡ read_nodes image.now root text.now nodes.old (length pool.old) }
    ensures bytes { pool.new ≡ read_pool image.now root text.now (length nodes.old) pool.old }
{
    let schema = open_root(image, root)?;
    if MOST_TEXT < text.len() {
        return Err(Refusal::TextTooLong.at(NO_PLACE));
    }
    parse::read_text(&schema, root, text, nodes, pool)
}

// Prints a table and its pool in a style, as `print` and `print_pretty` do. The first pass counts, over an empty part of the buffer; the
// second stores.
pub fn print_styled(
    style: Style,
    image: &[u8],
    root: usize,
    nodes: &[u32],
    pool: &[u8],
    buffer: &mut [u8],
) -> Result<usize, Refused>
    ensures answer { result ≡ printed_of (print_answer image.now (styled style) root nodes.now pool.now (length buffer.old)) }
    ensures bytes { buffer.new ≡ print_buffer image.now (styled style) root nodes.now pool.now buffer.old }
{
    let schema = open_table(image, root, nodes, pool)?;
    let n = print::text::print_text(&schema, style, root, nodes, pool, &mut buffer[..0]);
    if buffer.len() < n {
        return Err(Refusal::BufferShort.unplaced(n));
    }
    print::text::print_text(&schema, style, root, nodes, pool, buffer);
    Ok(n)
}

// Prints a table and its pool on one line.
//
// On success the answer is Ok(n): the first n bytes of `buffer` hold the text, and the rest is as it was. A refusal leaves the buffer
// as it was. In order: 1 the image is no schema; 2 it has no such message; 15 the table is not valid for schema, root and pool;
// 16 the text is longer than the buffer (the offset is the length needed).
pub fn print(
    image: &[u8],
    root: usize,
    nodes: &[u32],
    pool: &[u8],
    buffer: &mut [u8],
) -> Result<usize, Refused>
    ensures answer { result ≡ printed_of (print_answer image.now compact root nodes.now pool.now (length buffer.old)) }
    ensures bytes { buffer.new ≡ print_buffer image.now compact root nodes.now pool.now buffer.old }
{
    print_styled(Style::Compact, image, root, nodes, pool, buffer)
}

// Prints a table and its pool with a field to a line, indented by two spaces a level; else as `print`.
pub fn print_pretty(
    image: &[u8],
    root: usize,
    nodes: &[u32],
    pool: &[u8],
    buffer: &mut [u8],
) -> Result<usize, Refused>
    ensures answer { result ≡ printed_of (print_answer image.now pretty root nodes.now pool.now (length buffer.old)) }
    ensures bytes { buffer.new ≡ print_buffer image.now pretty root nodes.now pool.now buffer.old }
{
    print_styled(Style::Pretty, image, root, nodes, pool, buffer)
}

// Whether each live message of a table, the root included, has its required fields.
//
// In order: 1 the image is no schema; 2 it has no such message; 15 the table is not valid for schema, root and pool; 17 a required field is missing.
pub fn check_required(image: &[u8], root: usize, nodes: &[u32], pool: &[u8]) -> Result<(), Refused>
    ensures { result ≡ checked_of (required_answer image.now root nodes.now pool.now) }
{
    let schema = open_table(image, root, nodes, pool)?;
    if message::required::has_required(&schema, root, nodes, pool) {
        return Ok(());
    }
    Err(Refusal::RequiredMissing.at(NO_PLACE))
}

// Whether node `index` of a table is a string or bytes value. In order: 1, 2 and 15 as for `check_required`; 18 there is no such value.
pub fn value_number(
    image: &[u8],
    root: usize,
    nodes: &[u32],
    pool: &[u8],
    index: usize,
) -> Result<(), Refused>
    ensures { result ≡ valued_of (value_answer image.now root nodes.now pool.now index) }
{
    open_table(image, root, nodes, pool)?;
    if message::access::value_run(nodes, index).is_none() {
        return Err(Refusal::NoValue.at(NO_PLACE));
    }
    Ok(())
}

// The bytes of a string or bytes value, lent as a part of the pool; empty where `value_number` refuses.
pub fn value_bytes<'a>(
    image: &[u8],
    root: usize,
    nodes: &[u32],
    pool: &'a [u8],
    index: usize,
) -> &'a [u8]
    ensures { result.now ≡ value_bytes image.now root nodes.now pool.now index }
{
    match open_table(image, root, nodes, pool) {
        Ok(_) => message::access::value_bytes(nodes, pool, index),
        Err(_) => &pool[..0],
    }
}
