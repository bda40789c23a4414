// The scanner (T, H, "Tokens and grammar"): a cursor by value, whose method gives the next token with the next cursor.
// Each function takes the text whole and a place in it, which may lie past the end; the table of classes is lent down.
ghost use Rattle.std.specs.Prelude.{false, ◌&&◌, ◌≡◌, ◌+◌, ◌^◌, ◌≤◌, ◌<◌, eqb, ltb, length, drop, get_or};
ghost use Rattle.definitions.specs.Basics.{between};
ghost use Rattle.definitions.specs.Classes.{class, goes_on, quote_class};
ghost use Rattle.definitions.specs.Integers.{front, hex_digit, integer_length, runs_on};
ghost use Rattle.definitions.specs.Refusals.{most_text};
ghost use Rattle.definitions.specs.Tokens.{bad, colon, inside, integer_scan, scan, scan_from, string_scan, token_of};
ghost use Rattle.lexer.specs.Steps.{Located, Met, Placed, place_at, on_line, step_of, in_line, breaks, closing_of};

use crate::classes::{COMMENT, ClassTable, DIGIT, QUOTE, SPACE, SYMBOL};
use definitions::refusals::Refusal;
use definitions::{Place, Refused, Token, tokens};
use fronts::end;
use integers::hex_digit;

// The line that a place stands on: its number, counted from 1, and the offset of its first byte.
#[derive(Clone, Copy)]
pub struct Line {
    pub number: u32,
    pub began: u32,
}

impl Line {
    // That of the beginning of a text.
    pub const FIRST: Line = Line {
        number: 1,
        began: 0,
    };

    // The next line, which begins at an offset.
    // Kept: `as`, here and in `place`, which is proved to lose nothing: with the test of `try_from` a newline takes three instructions more.
    pub fn next(self, began: usize) -> Line
        requires { (self.number ≤ most_text) × (began ≤ most_text) }
        ensures { result ≡ record { number = self.number + 1; began = began } }
    {
        Line {
            number: self.number + 1,
            began: began as u32,
        }
    }
}

// Where reading stands in the text, and on which line.
#[derive(Clone, Copy)]
pub struct Cursor {
    pub at: usize,
    pub line: Line,
}

// A token and the cursor after it, or the refusal of a bad token at its first byte.
pub type Step = Result<(Token, Cursor), Refused>;

// The rest of a comment: any bytes up to the newline, or the end.
fn comment_end(text: &[u8], at: usize) -> usize
    ensures { result ≡ at + front in_line (drop at text.now) }
{
    end(text, at, |b| b != b'\n')
}

// The rest of a name, the classes 9 and up: letters, digits, `_`.
fn name_end(text: &[u8], at: usize, table: &ClassTable) -> usize
    ensures { result ≡ at + front goes_on (drop at text.now) }
{
    end(text, at, |b| DIGIT <= table.class(b))
}

// Digits from `0` to the last one: `9` for decimal, `7` for octal.
fn digits_end(text: &[u8], at: usize, last: u8) -> usize
    ensures { result ≡ at + front (between 48 last) (drop at text.now) }
{
    end(text, at, |b| b'0' <= b && b <= last)
}

// An integer that begins with `0`: `0x` or `0X` and hex digits, or octal digits. An `x` with no digit after it isn't taken.
fn zero_end(text: &[u8], at: usize) -> usize
    requires { at < length text.now }
    ensures { result ≡ at + integer_length 48 (drop (at + 1) text.now) }
{
    let x = at + 1;
    // Kept: the test of the length; over `get` the proof didn't close.
    if text.len() <= x {
        return x;
    }
    match text[x] {
        b'x' | b'X' => {
            let digits = x + 1;
            let end = end(text, digits, hex_digit);
            if end == digits { x } else { end }
        }
        _ => digits_end(text, x, b'7'),
    }
}

// An integer by its first digit: one other than `0` and digits, or one that begins with `0`.
fn integer_end(text: &[u8], at: usize, first: u8) -> usize
    requires { at < length text.now }
    ensures { result ≡ at + integer_length first (drop (at + 1) text.now) }
{
    if first == b'0' {
        return zero_end(text, at);
    }
    digits_end(text, at + 1, b'9')
}

// What may not follow an integer: a letter, digit, `_` or `.`.
fn runs_on(text: &[u8], at: usize, table: &ClassTable) -> bool
    ensures { result ≡ runs_on (drop at text.now) }
{
    // Kept: the test of the length; over `get` and `is_some_and` the proof didn't close.
    if text.len() <= at {
        return false;
    }
    let b = text[at];
    b == b'.' || DIGIT <= table.class(b)
}

// What a string may not hold, after a backslash either: the newline and the zero byte.
fn breaks(b: u8) -> bool
    ensures { result ≡ breaks b }
{
    b == b'\n' || b == 0
}

// The place after a string's closing quote, if it has one: bytes but the newline and the zero byte stand before it, a backslash taking the
// next one along. The classes 5 and up are plain there.
fn string_end(text: &[u8], at: usize, quote: u8, table: &ClassTable) -> Option<usize>
    requires { class quote ≡ quote_class }
    ensures { result ≡ closing_of at (inside quote false (drop at text.now)) }
{
    // Kept: a `while`, since a backslash takes two bytes.
    let mut i = at;
    while i < text.len() {
        let b = text[i];
        i += 1;
        if table.class(b) < SPACE {
            if b == quote {
                return Some(i);
            }
            if breaks(b) {
                return None;
            }
            if b == b'\\' {
                if text.len() <= i || breaks(text[i]) {
                    return None;
                }
                i += 1;
            }
        }
    }
    None
}

impl Cursor {
    // Where a cursor stands.
    fn place(self) -> Place
        requires { Placed self }
        ensures { result ≡ place_at self }
    {
        Place {
            offset: self.at,
            line: self.line.number,
            column: self.at as u32 - self.line.began + 1,
        }
    }

    // A token that begins here, up to an offset on the same line.
    fn token(self, kind: u8, end: usize) -> Step
        requires { Placed self }
        ensures { result ≡ on_line self.line (token_of kind (place_at self) end) }
    {
        let start = self.place();
        Ok((Token { kind, start }, Cursor { at: end, ..self }))
    }

    // A bad token that begins here.
    fn bad(self) -> Step
        requires { Placed self }
        ensures { result ≡ on_line self.line (bad (place_at self)) }
    {
        Err(Refusal::BadToken.at(self.place()))
    }

    // The token that begins here, with the byte b, of a sort (its class) that does not separate: a name, an integer that nothing runs on,
    // one of `{ } < > : - [ ] , ;`, a string (a quote, what stands inside, and the same quote), or a bad one.
    fn first(self, text: &[u8], b: u8, sort: u8, table: &ClassTable) -> Step
        requires { Met text.now self b × (sort ≡ class b) }
        ensures { result ≡ on_line self.line (scan_from (place_at self) (drop self.at text.now)) }
    {
        // Kept: told by order, since a `match` makes a table of jumps: a scan of integers takes 15.0 instructions a byte so, and 15.5 by it.
        let (kind, end) = if DIGIT < sort {
            (tokens::NAME, name_end(text, self.at + 1, table))
        } else if SYMBOL < sort {
            let end = integer_end(text, self.at, b);
            if runs_on(text, end, table) {
                return self.bad();
            }
            (tokens::INTEGER, end)
        } else if sort == SYMBOL {
            (b, self.at + 1)
        } else if sort == QUOTE {
            let Some(end) = string_end(text, self.at + 1, b, table) else {
                return self.bad();
            };
            (tokens::STRING, end)
        } else {
            return self.bad();
        };
        self.token(kind, end)
    }

    // The next token, or the end of the text. Only what separates holds a newline, so reading counts lines here and nowhere else.
    pub fn next(self, text: &[u8], table: &ClassTable) -> Step
        requires { Located text.now self }
        ensures { result ≡ step_of text.now (scan text.now self.at) }
    {
        // Kept: a `while`, since a comment is passed at once; text and table apart, since each caller
        // would make a struct of both anew out of the one that it holds; place and line apart too, since
        // over a cursor that is stored at each turn a text of blanks takes twice the time; and the newline
        // told by its byte, since three tests of the class become one, which comes to the space last.
        let mut at = self.at;
        let mut line = self.line;
        while at < text.len() {
            let b = text[at];
            let class = table.class(b);
            if class == SPACE {
                at += 1;
            } else if b == b'\n' {
                at += 1;
                line = line.next(at);
            } else if class == COMMENT {
                at = comment_end(text, at + 1);
            } else {
                return Cursor { at, line }.first(text, b, class, table);
            }
        }
        Cursor { at, line }.token(tokens::END, at)
    }

    // The same where a colon is due: one that stands right here is taken without a scan.
    pub fn colon(self, text: &[u8], table: &ClassTable) -> Step
        requires { Located text.now self }
        ensures { result ≡ step_of text.now (scan text.now self.at) }
    {
        if text.get(self.at) == Some(&tokens::COLON) {
            return self.token(tokens::COLON, self.at + 1);
        }
        self.next(text, table)
    }
}
