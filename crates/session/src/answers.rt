// The answers to requests.
use crate::lent::Parts;
use crate::request::Request;
use crate::state::State;
use crate::{lent, request, tell};
use carry::NotCarried;
use definitions::Refused;
use streams::lines::Line;
use streams::out::Out;
use text_format::Style;

// Answers a line of this room. None where it is no request: then nothing is changed, and nothing written.
//
// What is printed goes into the line's room too, since the line is not needed once its numbers are known. More room than there is to lend
// is no request.
//
// Kept: words and bytes are not one struct: it was tried, and no proof is made for a loan of both its parts.
pub(crate) fn answer(
    state: &mut State,
    out: &mut Out,
    room: &mut [u8],
    line: Line,
    words: &mut [u32],
    bytes: &mut [u8],
) -> Option<()> {
    match Request::of(room, line)? {
        Request::Nothing => {}
        // No image longer than its room can be accepted, nor can such a one cut at the room's end.
        Request::Schema(image) => state.image.hold(image),
        Request::Older(image) => state.older.hold(image),
        Request::Root(root) => state.root = root,
        // No valid table reaches past the room, and words after a table's end are ignored, so more words are cut at the room's end.
        Request::Nodes(nodes) => state.table.hold_words(nodes),
        // What is cut off could be asked for.
        Request::Pool(pool) => state.pool.hold_whole(pool)?,
        Request::Read {
            words: count,
            bytes: length,
            text,
        } => read(
            state,
            out,
            text,
            words.get_mut(..count)?,
            bytes.get_mut(..length)?,
        ),
        Request::Print {
            style,
            bytes: length,
        } => print(state, out, style, room.get_mut(..length)?),
        Request::Required => required(state, out),
        Request::Access(node) => access(state, out, node),
        Request::Carry {
            style,
            room: most,
            words: count,
            bytes: length,
        } => carry(
            state,
            out,
            style,
            room.get_mut(..most)?,
            words.get_mut(..count)?,
            bytes.get_mut(..length)?,
        ),
    }
    Some(())
}

// `T 0 0 NODES POOLBYTES WORDSHEX POOLHEX KEPT`, and what was read is the state's table and pool, or `T NO AT LINE COL KEPT`.
fn read(state: &mut State, out: &mut Out, text: &[u8], words: &mut [u32], bytes: &mut [u8]) {
    words.fill(lent::WORD);
    bytes.fill(lent::BYTE);
    let answer = text_format::read(state.image.items(), state.root, text, words, bytes);
    out.byte(b'T');
    match answer {
        Ok(made) => {
            tell::granted(out);
            let parts = Parts::of(words, bytes, made);
            tell::table(out, made, parts);
            tell::kept(out, parts.is_kept);
            state.table.hold(parts.table);
            state.pool.hold(parts.pool);
        }
        Err(refused) => {
            tell::refusal(out, refused);
            tell::kept(out, lent::are_kept(words, bytes));
        }
    }
}

// The print that is asked for.
fn print_styled(state: &State, style: Style, room: &mut [u8]) -> Result<usize, Refused> {
    let (image, table, pool) = (state.image.items(), state.table.items(), state.pool.items());
    match style {
        Style::Compact => text_format::print(image, state.root, table, pool, room),
        Style::Pretty => text_format::print_pretty(image, state.root, table, pool, room),
    }
}

// `C 0 0 LENGTH HEX KEPT` or `C NO AT LINE COL KEPT`, and likewise `Y`. Where the length went over the room, what is there is told.
fn print(state: &State, out: &mut Out, style: Style, room: &mut [u8]) {
    room.fill(lent::BYTE);
    let answer = print_styled(state, style, room);
    out.byte(request::letter(style));
    match answer {
        Ok(length) => {
            tell::granted(out);
            out.print(format_args!(" {length}"));
            let (text, rest) = room.split_at(length.min(room.len()));
            tell::hex(out, text);
            tell::kept(out, lent::are_kept(&[], rest));
        }
        Err(refused) => {
            tell::refusal(out, refused);
            tell::kept(out, lent::are_kept(&[], room));
        }
    }
}

// `Q 0 0` or `Q NO AT LINE COL`
fn required(state: &State, out: &mut Out) {
    out.byte(b'Q');
    match text_format::check_required(
        state.image.items(),
        state.root,
        state.table.items(),
        state.pool.items(),
    ) {
        Ok(()) => tell::granted(out),
        Err(refused) => tell::refusal(out, refused),
    }
    out.byte(b'\n');
}

// `A 0 0 HEX` or `A NO AT LINE COL`
fn access(state: &State, out: &mut Out, node: usize) {
    let (image, table, pool) = (state.image.items(), state.table.items(), state.pool.items());
    out.byte(b'A');
    match text_format::value_number(image, state.root, table, pool, node) {
        Ok(()) => {
            tell::granted(out);
            tell::hex(
                out,
                text_format::value_bytes(image, state.root, table, pool, node),
            );
        }
        Err(refused) => tell::refusal(out, refused),
    }
    out.byte(b'\n');
}

// `X 0 0 NODES POOLBYTES WORDSHEX POOLHEX BUFFERHEX KEPT`, or `X print NO AT LINE COL BUFFERHEX KEPT` where the print refused, and
// likewise `X read ..`: the state's table and pool are carried from the schema image to the older one.
fn carry(
    state: &State,
    out: &mut Out,
    style: Style,
    room: &mut [u8],
    words: &mut [u32],
    bytes: &mut [u8],
) {
    room.fill(lent::BYTE);
    words.fill(lent::WORD);
    bytes.fill(lent::BYTE);
    let answer = carry::carry(
        style == Style::Pretty,
        state.image.items(),
        state.older.items(),
        state.root,
        state.table.items(),
        state.pool.items(),
        room,
        words,
        bytes,
    );
    let is_kept = match answer {
        Ok(made) => {
            out.byte(b'X');
            tell::granted(out);
            let parts = Parts::of(words, bytes, made);
            tell::table(out, made, parts);
            parts.is_kept
        }
        Err(refused) => {
            match refused {
                NotCarried::Print(refused) => {
                    out.bytes(b"X print");
                    tell::refusal(out, refused);
                }
                NotCarried::Read(refused) => {
                    out.bytes(b"X read");
                    tell::refusal(out, refused);
                }
            }
            lent::are_kept(words, bytes)
        }
    };
    tell::hex(out, room);
    tell::kept(out, is_kept);
}
