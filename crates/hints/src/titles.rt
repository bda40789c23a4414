// Names of messages and enums. No record of an image has them, but name bytes that no name uses may be anything (document 01, "Schema
// image"): where an image's maker put them, they are the last of its name bytes, the messages' and then the enums', each behind a zero byte.
use crate::catalog::Owner;
use records::Schema;
use streams::number;

// The longest that is shown, as long as a field's name may be.
const MOST_TITLE: usize = 63;

// The name bytes from the last `count` zero bytes on, none where there are fewer.
fn last_behind_zeros(names: &[u8], count: usize) -> Option<&[u8]> {
    let before = count.checked_sub(1)?;
    let (start, _) = names
        .iter()
        .enumerate()
        .rev()
        .filter(|(_, b)| **b == 0)
        .nth(before)?;
    names.get(start..)
}

// The names of a schema's messages and enums, each behind a zero byte, where its maker put them.
fn titles<'a>(schema: &Schema<'a>) -> &'a [u8] {
    let count = schema.message_count().saturating_add(schema.enum_count());
    let names = schema.image.get(schema.layout.names..).unwrap_or(&[]);
    last_behind_zeros(names, count).unwrap_or(&[])
}

// Letters, digits, `_`, and the dots of a name within another's; and not too many of them. An image is anyone's, and what is shown must be
// a name.
fn is_name(title: &[u8]) -> bool {
    title.len() <= MOST_TITLE
        && title
            .iter()
            .all(|b| b.is_ascii_alphanumeric() || *b == b'_' || *b == b'.')
}

// The name of a message or of an enum, by the kind of the fields that refer to one; empty where the image has none for it, and for any
// other kind.
pub fn title_of<'a>(schema: &Schema<'a>, kind: u8, index: usize) -> &'a [u8] {
    let before = match Owner::of_kind(kind) {
        Some(Owner::Message) => 0,
        Some(Owner::Enum) => schema.message_count(),
        None => return &[],
    };
    let title = titles(schema)
        .split(|b| *b == 0)
        .skip(1)
        .nth(before.saturating_add(index))
        .unwrap_or(&[]);
    if is_name(title) { title } else { &[] }
}

// The message that a word asks for: by its name, or by its number.
pub fn message_of(schema: &Schema, word: &[u8]) -> Option<usize> {
    let count = schema.message_count();
    if let Some(n) = number::decimal(word) {
        return if n < count { Some(n) } else { None };
    }
    titles(schema)
        .split(|b| *b == 0)
        .skip(1)
        .take(count)
        .position(|title| title == word && is_name(title))
}
