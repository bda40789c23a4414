// The line of a text that a refusal points at, and a caret under the word.
use definitions::Place;
use streams::line;
use streams::out::Out;

// The widest line that is written, but for a text's own.
pub const MOST_COLUMNS: usize = 100;

// Of a longer line a part is shown, so many bytes at most, of which so many stand before the word.
const MOST_LINE: usize = 98;

const MOST_PART: usize = 92;

const MOST_BEFORE: usize = 40;

// How many digits a line's or a column's number has.
fn width(n: u32) -> usize {
    match n {
        0..=9 => 1,
        10..=99 => 2,
        100..=999 => 3,
        _ => 7,
    }
}

// How many columns `PATH:LINE:COLUMN:` takes.
pub fn head_width(path: &[u8], place: Place) -> usize {
    path.len()
        .saturating_add(width(place.line))
        .saturating_add(width(place.column))
        .saturating_add(3)
}

// A byte that goes on with a letter of UTF-8, which takes no column of its own.
fn goes_on(b: u8) -> bool {
    (128..192).contains(&b)
}

// Where a letter begins at an index of a line or behind it: past the bytes, three at most, that go on with one.
fn letter_start(row: &[u8], i: usize) -> usize {
    let behind = line::part(row, i, i.saturating_add(3));
    i.saturating_add(behind.iter().take_while(|b| goes_on(**b)).count())
}

// The part of a line that is shown, and in it the word, both from an index up to another.
#[derive(Clone, Copy)]
struct View {
    start: usize,
    end: usize,
    word: usize,
    last: usize,
}

impl View {
    // What is shown for a word at an index of a line.
    fn of(row: &[u8], word: usize, length: usize) -> View {
        let mut start = 0;
        let mut end = row.len();
        if row.len() > MOST_LINE {
            if word > MOST_BEFORE {
                start = letter_start(row, word - MOST_BEFORE);
            }
            end = letter_start(row, start.saturating_add(MOST_PART)).min(row.len());
        }
        View {
            start,
            end,
            word,
            last: word.saturating_add(length).min(end),
        }
    }
}

// What is put for a byte. In the line itself (no mark) the byte, but for control bytes and what isn't UTF-8, which would spoil the
// screen. Under it the mark, a blank or a caret, for each column: a tab is as wide as it is, and a letter of UTF-8 takes one.
fn shown(b: u8, mark: Option<u8>, is_utf8: bool) -> Option<u8> {
    if b == b'\t' {
        return Some(b);
    }
    if mark.is_some() {
        return if is_utf8 && goes_on(b) { None } else { mark };
    }
    if b.is_ascii_control() || b >= 128 && !is_utf8 {
        return Some(b'?');
    }
    Some(b)
}

fn put_shown(out: &mut Out, s: &[u8], mark: Option<u8>, is_utf8: bool) {
    for b in s {
        if let Some(c) = shown(*b, mark, is_utf8) {
            out.byte(c);
        }
    }
}

// The line, and the carets below it. Two dots stand for what is left out.
fn two_lines(out: &mut Out, row: &[u8], view: View) {
    let part = line::part(row, view.start, view.end);
    let is_utf8 = utf8::is_utf8(part);
    let is_cut = view.start > 0;
    out.bytes(if is_cut {
        "  ..".as_bytes()
    } else {
        "  ".as_bytes()
    });
    put_shown(out, part, None, is_utf8);
    if view.end < row.len() {
        out.bytes(b"..");
    }
    out.bytes(b"\n  ");
    if is_cut {
        out.bytes(b"  ");
    }
    let before = line::part(row, view.start, view.word);
    put_shown(out, before, Some(b' '), is_utf8);
    out.byte(b'^');
    let behind = line::part(row, view.word.saturating_add(1), view.last);
    put_shown(out, behind, Some(b'^'), is_utf8);
    out.byte(b'\n');
}

// The line that an offset of a text stands on, and a caret under the word there.
pub fn pointed(out: &mut Out, text: &[u8], offset: usize) {
    let whole = words::line(text, offset);
    let row = whole.strip_suffix(b"\r").unwrap_or(whole);
    let word = offset.saturating_sub(words::line_first(text, offset));
    let length = words::word(text, offset).len();
    two_lines(out, row, View::of(row, word, length));
}
