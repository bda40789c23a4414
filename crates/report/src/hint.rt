// What helps along after a refusal: the known names nearest to the word, or all that there are; a number's range.
use crate::place::MOST_COLUMNS;
use definitions::kinds;
use definitions::refusals::Refusal;
use hints::catalog::Owner;
use hints::nearest;
use hints::scene::Scene;
use records::Schema;
use std::ops::Range;
use streams::out::Out;

// How many columns `did you mean  or ?` takes.
const MEANT: usize = 18;

// `did you mean valve_min or valve_mid?`, the second if there is one and the line has room for it.
fn meant(out: &mut Out, first: &[u8], second: Option<&[u8]>) {
    out.bytes(b"did you mean ");
    out.bytes(first);
    if let Some(second) = second {
        if first.len().saturating_add(second.len()) <= MOST_COLUMNS - MEANT {
            out.bytes(b" or ");
            out.bytes(second);
        }
    }
    out.bytes(b"?\n");
}

// `known here: a, b, c`, as many as go on a line.
fn known(out: &mut Out, schema: &Schema, owner: Owner, run: Range<usize>) {
    out.bytes(b"known here:");
    let mut column: usize = 11;
    let mut gap = b" ".as_slice();
    for i in run {
        let word = owner.name(schema, i);
        column = column.saturating_add(word.len()).saturating_add(2);
        out.bytes(gap);
        if column > MOST_COLUMNS - 4 {
            out.bytes(b"..\n");
            return;
        }
        out.bytes(word);
        gap = b", ".as_slice();
    }
    out.byte(b'\n');
}

// The fields of a message, or the values of an enum, that are near; all where none is.
fn names(out: &mut Out, schema: &Schema, owner: Owner, index: usize, word: &[u8]) {
    let run = owner.run(schema, index);
    let near = nearest::among(schema, owner, run.start..run.end, word);
    if let Some(first) = near.first() {
        let second = near.second().map(|i| owner.name(schema, i));
        meant(out, owner.name(schema, first), second);
    } else if run.start < run.end {
        known(out, schema, owner, run);
    }
}

// The numbers that a kind takes.
// Kept: the kind is a number, as definitions' kinds are.
fn range(kind: u8) -> &'static str {
    match kind {
        kinds::I32 => "-2147483648 to 2147483647",
        kinds::I64 => "-9223372036854775808 to 9223372036854775807",
        kinds::U32 => "0 to 4294967295",
        kinds::U64 => "0 to 18446744073709551615",
        _ => "",
    }
}

// What helps with a word that was refused where the scene tells.
pub fn hint(out: &mut Out, schema: &Schema, word: &[u8], why: Refusal, scene: &Scene) {
    match (why, scene.holder, scene.wanted) {
        (Refusal::Overflow, _, wanted) => {
            let range = wanted.map_or("", |want| range(want.kind));
            out.print(format_args!("it takes {range}\n"));
        }
        (Refusal::UnknownField, Some(holder), _) if holder.kind == kinds::ENTRY => {
            out.bytes(b"an entry has just key and value\n");
        }
        (Refusal::UnknownField, Some(holder), _) => {
            names(out, schema, Owner::Message, holder.reference, word);
        }
        (Refusal::UnknownValue, _, Some(wanted)) => {
            names(out, schema, Owner::Enum, wanted.reference, word);
        }
        _ => (),
    }
}
