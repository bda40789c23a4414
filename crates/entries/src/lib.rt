// What a message and an entry of a map differ in: which fields they have, `key` and `value` each at most once, and defaults.
#![tactic(auto)]

mod defaults;

ghost use Rattle.std.specs.Prelude.{◌≡◌, true, ◌≤◌, ◌+◌};
ghost use Rattle.definitions.specs.Refusals.{most_text};
ghost use Rattle.definitions.specs.Scope.{within, find_in, nests};
ghost use Rattle.definitions.specs.Reading.{closed, again};
ghost use Rattle.records.specs.Known.{option_of};
ghost use Rattle.leaves.specs.Answers.{Fits, AnswersUpTo};
ghost use Rattle.entries.specs.Noted.{standing, Noted};

use crate::defaults::{is_too_deep, put_default, put_missing};
use definitions::refusals::Refusal;
use definitions::{Place, Refused, Want, kinds};
use leaves::Position;
use nodes::want;
use records::Schema;

// Which of its two fields an entry of a map has so far; a message keeps none.
#[derive(Clone, Copy)]
pub struct Entry {
    pub key: bool,
    pub value: bool,
}

impl Entry {
    pub const EMPTY: Entry = Entry {
        key: false,
        value: false,
    };

    // `key` or `value` of an entry, a second time.
    pub fn is_again(self, w: Want, i: usize) -> bool
        ensures { result ≡ again (within w) i (standing (record { at = 0; node = 0; byte = 0 }) self) }
    {
        if w.kind != kinds::ENTRY {
            return false;
        }
        if i == 0 { self.key } else { self.value }
    }

    // The same once the field i is read too.
    pub fn with(self, w: Want, i: usize) -> Entry
        ensures { Noted w i self result }
    {
        if w.kind != kinds::ENTRY {
            return self;
        }
        Entry {
            key: self.key || i == 0,
            value: self.value || i == 1,
        }
    }
}

// The field of that name in a message, or in an entry of a map: `key` or `value`.
pub fn find_in(schema: &Schema, w: Want, guess: usize, name: &[u8]) -> Option<usize>
    requires { Fits schema.now.image.now w × (nests w.kind ≡ true) }
    ensures { result ≡ option_of (find_in schema.now.image.now (within w) name.now) }
{
    if w.kind != kinds::ENTRY {
        return lookup::find_field(schema, w.reference, guess, name);
    }
    if name == b"key".as_slice() {
        return Some(0);
    }
    if name == b"value".as_slice() {
        return Some(1);
    }
    None
}

// A closer: an entry gets what it lacks, key first.
pub fn close_body(
    schema: &Schema,
    w: Want,
    deep: bool,
    at: Place,
    here: Position,
    entry: Entry,
    nodes: &mut [u32],
) -> Result<Position, Refused>
    requires { Fits schema.now.image.now w × (here.spot.node ≤ most_text + 1) × (here.spot.byte ≤ most_text) }
    ensures { AnswersUpTo (record { at = here.spot.at; line = here.line }) nodes.old nodes.new here.spot (closed deep schema.now.image.now (within w) at here.spot.at (standing here.spot entry)) result }
{
    if w.kind != kinds::ENTRY {
        return Ok(here);
    }
    let key = want(schema, w, 0);
    let next = put_missing(entry.key, schema, key, here, nodes);
    let value = want(schema, w, 1);
    if entry.value {
        return Ok(next);
    }
    if is_too_deep(deep, value.kind) {
        return Err(Refusal::TooDeep.at(at));
    }
    Ok(put_default(schema, value, next, nodes))
}
