// What a person is shown of a refusal: the word at its place, and the line that the word stands on, each lent as a part of the text, or empty.
// Any bytes may be handed in as text, and any offset.
#![tactic(auto)]

ghost use Rattle.std.specs.Prelude.{◌≡◌, ◌+◌, ◌≤◌, ◌<◌, length, drop};
ghost use Rattle.definitions.specs.Refusals.{most_text};
ghost use Rattle.definitions.specs.Tokens.{skip};
ghost use Rattle.lexer.specs.Steps.{line_at};
ghost use Rattle.words.specs.Words.{goes_with, bad_length, word_end, word, line_first, line_end, line};

use definitions::limits::MOST_TEXT;
use fronts::end;
use lexer::classes::{DIGIT, QUOTE};
use lexer::{ClassTable, Cursor, Line};
use std::ops::Range;

// What goes on a bad token, by its first byte: in a string all but the newline and the zero byte, in an integer letters, digits, `_`
// and `.`, and bytes over 127 with each other.
#[tactic(auto, unfolding(crate::specs::Words::goes_with))]
fn goes_with(first: u8, b: u8, table: &ClassTable) -> bool
    ensures { result ≡ goes_with first b }
{
    match table.class(first) {
        QUOTE => b != b'\n' && b != 0,
        DIGIT => b == b'.' || DIGIT <= table.class(b),
        _ => 128 <= first && 128 <= b,
    }
}

// The end of a bad token.
fn bad_end(text: &[u8], at: usize, table: &ClassTable) -> usize
    requires { at < length text.now }
    ensures { result ≡ at + bad_length (drop at text.now) }
{
    let first = text[at];
    end(text, at + 1, |b| goes_with(first, b, table))
}

// The line that an offset stands on, counted from the start of the text.
fn line_at(text: &[u8], at: usize) -> Line
    requires { (at ≤ length text.now) × (length text.now ≤ most_text) }
    ensures { result ≡ line_at text.now at }
{
    let mut line = Line::FIRST;
    for i in 0..at {
        if text[i] == b'\n' {
            line = line.next(i + 1);
        }
    }
    line
}

// Where the word at an offset lies.
fn word_range(text: &[u8], at: usize) -> Range<usize>
    requires { (at ≤ length text.now) × (length text.now ≤ most_text) }
    ensures { (result.start ≡ skip text.now at) × (result.end ≡ word_end text.now at) }
{
    let table = ClassTable::new();
    let line = line_at(text, at);
    match (Cursor { at, line }).next(text, &table) {
        Ok((token, after)) => token.start.offset..after.at,
        Err(bad) => {
            let from = bad.at.offset;
            from..bad_end(text, from, &table)
        }
    }
}

// The word at an offset, without what separates before it: the token there, or what was most likely meant as one. It is empty at the
// end of the text, past it, and in a text of over 1,048,576 bytes.
pub fn word<'a>(text: &'a [u8], at: usize) -> &'a [u8]
    ensures { result.now ≡ word text.now at }
{
    if MOST_TEXT < text.len() || text.len() < at {
        return &[];
    }
    let range = word_range(text, at);
    &text[range]
}

// Where the line of an offset begins; past the end of the text the offset itself.
pub fn line_first(text: &[u8], at: usize) -> usize
    ensures { result ≡ line_first text.now at }
{
    if text.len() < at {
        return at;
    }
    for i in (0..at).rev() {
        if text[i] == b'\n' {
            return i + 1;
        }
    }
    0
}

// Where it ends: at its newline, or the end of the text.
#[tactic(auto, unfolding(crate::specs::Words::line_end))]
fn line_end(text: &[u8], at: usize) -> usize
    ensures { result ≡ line_end text.now at }
{
    end(text, at, |b| b != b'\n')
}

// The line of an offset, without its newline; past the end of the text it is empty.
pub fn line<'a>(text: &'a [u8], at: usize) -> &'a [u8]
    ensures { result.now ≡ line text.now at }
{
    if text.len() < at {
        return &[];
    }
    let range = line_first(text, at)..line_end(text, at);
    &text[range]
}
