// What is written of answers.
use crate::lent::Parts;
use definitions::Refused;
use streams::out::Out;
use text_format::Made;

const DIGITS: [u8; 16] = *b"0123456789abcdef";

// ` 0 0`, where nothing is refused.
pub(crate) fn granted(out: &mut Out) {
    out.bytes(b" 0 0");
}

// ` NO AT LINE COL`
pub(crate) fn refusal(out: &mut Out, refused: Refused) {
    let (no, at) = (refused.why.number(), refused.at);
    out.print(format_args!(" {no} {} {} {}", at.offset, at.line, at.column));
}

fn hex_byte(out: &mut Out, b: u8) {
    out.byte(DIGITS[usize::from(b / 16)]);
    out.byte(DIGITS[usize::from(b % 16)]);
}

// Most significant digit first.
fn hex_word(out: &mut Out, w: u32) {
    for b in w.to_be_bytes() {
        hex_byte(out, b);
    }
}

// A space, and what each item is written as, `-` where there is none.
fn each<T: Copy, F: Fn(&mut Out, T)>(out: &mut Out, items: &[T], write: F)
    requires { F.IsAlwaysCallable write }
{
    out.byte(b' ');
    if items.is_empty() {
        out.byte(b'-');
    }
    for item in items {
        write(out, *item);
    }
}

// A space, and the bytes in hex, `-` where there are none.
pub(crate) fn hex(out: &mut Out, bytes: &[u8]) {
    each(out, bytes, hex_byte);
}

// The same of words.
pub(crate) fn hex_words(out: &mut Out, words: &[u32]) {
    each(out, words, hex_word);
}

// ` NODES POOLBYTES WORDSHEX POOLHEX`
pub(crate) fn table(out: &mut Out, made: Made, parts: Parts) {
    out.print(format_args!(" {} {}", made.nodes, made.bytes));
    hex_words(out, parts.table);
    hex(out, parts.pool);
}

// The line that ends an answer: whether all that was to be left alone was.
pub(crate) fn kept(out: &mut Out, is_kept: bool) {
    if is_kept {
        out.bytes(b" kept\n");
    } else {
        out.bytes(b" touched\n");
    }
}

// The answer to a line that is no request: its number, counted from 1.
pub(crate) fn no_request(out: &mut Out, line: usize) {
    out.print(format_args!("? {line}\n"));
}
