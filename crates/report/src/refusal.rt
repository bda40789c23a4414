// Each refusal, in words that a grower understands: where, which word, its line, and what helps.
use crate::call::Asked;
use crate::place::MOST_COLUMNS;
use crate::rooms::{POOL_LENGTH, SHOWN_LENGTH};
use crate::verdict::Verdict;
use crate::{hint, place};
use definitions::limits::MOST_NODES;
use definitions::refusals::Refusal;
use definitions::{Refused, kinds};
use hints::scene;
use hints::scene::{Phase, Scene};
use records::Schema;
use streams::out::Out;

// The longest word that is shown, and the longest name.
const MOST_WORD: usize = 48;

const MOST_NAME: usize = 63;

// How many columns ` (refusal 6)` takes.
const NUMBER: usize = 13;

// What a sentence's marks stand for: `@` for the word, `$` for what was expected, `#` for what is needed and `&` for what there is.
#[derive(Clone, Copy)]
struct Marks<'a> {
    word: &'a [u8],
    due: &'a [u8],
    needed: usize,
    most: usize,
}

// The marks of a sentence about a word.
fn of_word<'a>(word: &'a [u8], due: &'a [u8]) -> Marks<'a> {
    Marks {
        word,
        due,
        needed: 0,
        most: 0,
    }
}

// A refusal's sentence and ` (refusal 6)`, on a line of its own where the one it is on, of which so many columns are used, has no room.
// Kept: a template and its marks, since how wide the sentence gets is told before it is written, and a word is bytes, which no Display has.
fn sentence(out: &mut Out, used: usize, template: &[u8], marks: Marks, why: Refusal) {
    let wide = used
        .saturating_add(template.len())
        .saturating_add(marks.word.len())
        .saturating_add(marks.due.len())
        .saturating_add(NUMBER);
    out.bytes(if wide <= MOST_COLUMNS {
        " ".as_bytes()
    } else {
        "\n  ".as_bytes()
    });
    for c in template {
        match *c {
            b'@' => out.bytes(marks.word),
            b'$' => out.bytes(marks.due),
            b'#' => out.print(marks.needed),
            b'&' => out.print(marks.most),
            other => out.byte(other),
        }
    }
    let number = why.number();
    out.print(format_args!(" (refusal {number})\n"));
}

// What reading expected.
fn expected(scene: &Scene) -> &'static str {
    let kind = scene.wanted.map_or(0, |want| want.kind);
    match scene.phase {
        Phase::AtName if scene.level == 0 => "a field's name",
        Phase::AtName => "a name or its closer",
        Phase::AfterName if kind < kinds::MESSAGE => "a colon",
        Phase::AfterName => "{",
        Phase::AfterColon | Phase::AfterMinus => match kind {
            kinds::STRING | kinds::BYTES => "text in quotes",
            kinds::ENUM => "a value's name",
            kinds::U32 | kinds::U64 => "a number from 0 up",
            _ => "a whole number",
        },
    }
}

// A refusal's sentence; none of a command's refusals is about a table or a node's value.
fn plain_sentence(why: Refusal) -> &'static str {
    match why {
        Refusal::BadSchema => "this isn't a schema",
        Refusal::NoMessage => "this schema has no such message",
        Refusal::TextTooLong => "over 1048576 bytes, more than a logger takes",
        Refusal::BadToken => "a character that can't stand here: @",
        Refusal::OtherExpected => "$ is expected, not @",
        Refusal::UnknownField => "unknown field @",
        Refusal::UnknownValue => "unknown value @",
        Refusal::Twice => "@ stands twice in one entry",
        Refusal::Overflow => "out of range: @",
        Refusal::NotBool => "true or false is expected, not @",
        Refusal::BadString => "this text in quotes has a bad escape, or isn't UTF-8",
        Refusal::TooDeep => "nested more than 32 levels deep",
        Refusal::NodesShort => "values and messages: #, and at most & fit",
        Refusal::PoolShort => "bytes of text in quotes: #, and at most & fit",
        Refusal::BufferShort => "bytes to show: #, and at most & fit",
        Refusal::RequiredMissing => "required field @ is missing",
        Refusal::BadTable | Refusal::NoValue => "",
    }
}

// The sentence that tells of a word that begins with a byte, 0 at the end of the file, and that can be shown or not.
fn word_sentence(why: Refusal, first: u8, is_plain: bool) -> &'static str {
    match (why, first) {
        (Refusal::BadToken, b'"' | b'\'') => "this text in quotes isn't closed on its line",
        (Refusal::BadToken, b'0'..=b'9') => "not a number: @",
        (Refusal::BadToken, _) if !is_plain => "a character that can't stand here",
        (Refusal::OtherExpected, 0) => "$ is expected, but the file ends",
        (Refusal::NotBool, 0) => "true or false is expected, but the file ends",
        _ => plain_sentence(why),
    }
}

// Whether a word can be shown as it is: it is short, and no byte of it would spoil the screen.
fn is_shown(word: &[u8], why: Refusal) -> bool {
    let most = match why {
        Refusal::UnknownField | Refusal::UnknownValue => MOST_NAME,
        _ => MOST_WORD,
    };
    word.len() <= most && !word.iter().any(|b| b.is_ascii_control()) && utf8::is_utf8(word)
}

// `PATH:3:7: unknown field valve_max (refusal 6)`, where so many columns of the line are used. The word is the token at the place.
pub fn named(
    out: &mut Out,
    path: &[u8],
    text: &[u8],
    refused: Refused,
    scene: &Scene,
    used: usize,
) {
    let Refused { why, at: place } = refused;
    out.bytes(path);
    let line = place.line;
    let column = place.column;
    out.print(format_args!(":{line}:{column}:"));
    let word = words::word(text, place.offset);
    let is_plain = is_shown(word, why);
    let told = if is_plain {
        word
    } else {
        b"this word".as_slice()
    };
    let due = if why == Refusal::OtherExpected {
        expected(scene)
    } else {
        ""
    };
    let first = word.first().copied().unwrap_or(0);
    let template = word_sentence(why, first, is_plain);
    let columns = used.saturating_add(place::head_width(path, place));
    sentence(
        out,
        columns,
        template.as_bytes(),
        of_word(told, due.as_bytes()),
        why,
    );
}

// Whether a refusal points at a word.
pub fn is_placed(why: Refusal) -> bool {
    (Refusal::BadToken.number()..=Refusal::TooDeep.number()).contains(&why.number())
}

// A refusal that points at no word, of a file: what is needed, and what there is.
pub fn unplaced(out: &mut Out, path: &[u8], refused: Refused, asked: &Asked) {
    let why = refused.why;
    let needed = refused.at.offset;
    out.bytes(path);
    out.byte(b':');
    let (needed, most) = match why {
        Refusal::NodesShort => {
            let most = asked.values.unwrap_or(usize::MAX).min(MOST_NODES - 1);
            (needed.saturating_sub(1), most)
        }
        Refusal::PoolShort => (needed, asked.bytes.unwrap_or(usize::MAX).min(POOL_LENGTH)),
        _ => (needed, SHOWN_LENGTH),
    };
    let marks = Marks {
        word: &[],
        due: &[],
        needed,
        most,
    };
    sentence(out, 0, plain_sentence(why).as_bytes(), marks, why);
}

// `TEXT: required field valve_max is missing (refusal 17)`
pub fn missing(out: &mut Out, path: &[u8], name: &[u8]) {
    let why = Refusal::RequiredMissing;
    out.bytes(path);
    out.byte(b':');
    sentence(
        out,
        path.len(),
        plain_sentence(why).as_bytes(),
        of_word(name, &[]),
        why,
    );
}

// A refusal of reading, whole: its line, and where it points at a word the text's line with a caret, and what helps.
pub fn of_read(
    out: &mut Out,
    path: &[u8],
    asked: &Asked,
    schema: &Schema,
    root: usize,
    text: &[u8],
    refused: Refused,
) -> Verdict {
    if is_placed(refused.why) {
        let offset = refused.at.offset;
        let scene = scene::scene_at(schema, root, text, offset);
        named(out, path, text, refused, &scene, 0);
        place::pointed(out, text, offset);
        hint::hint(out, schema, words::word(text, offset), refused.why, &scene);
    } else {
        unplaced(out, path, refused, asked);
    }
    Verdict::Refused
}
