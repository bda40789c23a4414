// A line of the protocol: what it asks for.
use crate::hex;
use streams::lines::Line;
use streams::number::decimal;
use text_format::Style;

// The letter of the request to print.
pub(crate) fn letter(style: Style) -> u8 {
    match style {
        Style::Compact => b'C',
        Style::Pretty => b'Y',
    }
}

pub(crate) enum Request<'a> {
    // A blank line, or one that begins with `#`.
    Nothing,
    // `S HEX`
    Schema(&'a [u8]),
    // `O HEX`
    Older(&'a [u8]),
    // `R N`
    Root(usize),
    // `N HEX`, four bytes a word
    Nodes(&'a [[u8; 4]]),
    // `P HEX`
    Pool(&'a [u8]),
    // `T WORDS BYTES HEX`
    Read {
        words: usize,
        bytes: usize,
        text: &'a [u8],
    },
    // `C BYTES` and `Y BYTES`
    Print {
        style: Style,
        bytes: usize,
    },
    // `Q`
    Required,
    // `A NODE`
    Access(usize),
    // `X STYLE ROOM WORDS BYTES`
    Carry {
        style: Style,
        room: usize,
        words: usize,
        bytes: usize,
    },
}

impl<'a> Request<'a> {
    // What the line in this room asks for. None where it is no request.
    pub(crate) fn of(room: &'a mut [u8], line: Line) -> Option<Request<'a>> {
        match line {
            Line::Whole(n) => Request::whole(room.get_mut(..n)?),
            Line::Cut(_) if room.starts_with(b"#") => Some(Request::Nothing),
            Line::Cut(_) => None,
        }
    }

    // Q stands alone, any other letter before a space. What is spelled in hex is put at its own front.
    fn whole(line: &'a mut [u8]) -> Option<Request<'a>> {
        match line {
            [] | [b'#', ..] => Some(Request::Nothing),
            [b'Q'] => Some(Request::Required),
            [letter, b' ', rest @ ..] => Request::with(*letter, rest),
            _ => None,
        }
    }

    // The request of this letter.
    fn with(letter: u8, rest: &'a mut [u8]) -> Option<Request<'a>> {
        match letter {
            b'S' => Some(Request::Schema(hex::decode(rest)?)),
            b'O' => Some(Request::Older(hex::decode(rest)?)),
            b'R' => Some(Request::Root(decimal(rest)?)),
            b'N' => Request::nodes(rest),
            b'P' => Some(Request::Pool(hex::decode(rest)?)),
            b'T' => Request::read(rest),
            b'C' => Request::print(Style::Compact, rest),
            b'Y' => Request::print(Style::Pretty, rest),
            b'A' => Some(Request::Access(decimal(rest)?)),
            b'X' => Request::carry(rest),
            _ => None,
        }
    }

    fn nodes(rest: &'a mut [u8]) -> Option<Request<'a>> {
        let (words, left) = hex::decode(rest)?.as_chunks();
        if left.is_empty() {
            Some(Request::Nodes(words))
        } else {
            None
        }
    }

    fn read(rest: &'a mut [u8]) -> Option<Request<'a>> {
        let (words, rest) = leading(rest)?;
        let (bytes, rest) = leading(rest)?;
        let text = hex::decode(rest)?;
        Some(Request::Read { words, bytes, text })
    }

    fn print(style: Style, rest: &[u8]) -> Option<Request<'a>> {
        let bytes = decimal(rest)?;
        Some(Request::Print { style, bytes })
    }

    // Style 0 is compact, and 1 pretty.
    fn carry(rest: &mut [u8]) -> Option<Request<'a>> {
        let (style, rest) = leading(rest)?;
        let (room, rest) = leading(rest)?;
        let (words, rest) = leading(rest)?;
        let bytes = decimal(rest)?;
        let style = match style {
            0 => Style::Compact,
            1 => Style::Pretty,
            _ => return None,
        };
        Some(Request::Carry {
            style,
            room,
            words,
            bytes,
        })
    }
}

// A number that a space ends, and what follows.
fn leading(line: &mut [u8]) -> Option<(usize, &mut [u8])> {
    let end = line.iter().position(|b| *b == b' ')?;
    let n = decimal(&line[..end])?;
    Some((n, &mut line[end + 1..]))
}
