// The types that the definitions share with the code above them, and the format's numbers by name: the rules
// stand in specs/.
#![tactic(auto)]

pub mod kinds;
pub mod labels;
pub mod limits;
pub mod refusals;
pub mod tokens;

ghost use Rattle.std.specs.Prelude.{◌≡◌, ◌+◌, ◌≤◌, length};
ghost use Rattle.definitions.specs.Scope as scope;
ghost use Rattle.definitions.specs.Nodes as table;
ghost use Rattle.definitions.specs.Live as live;

use kinds::words;
use limits::FIRST_UNKNOWN;

// A run of records: the fields of a message, or the values of an enum (H, "Schema image").
#[derive(Clone, Copy)]
pub struct Span {
    pub first: usize,
    pub count: usize,
}

// A field's record (H, "Schema image"): where its name lies in the name bytes, its number, label, key type, type and reference.
#[derive(Clone, Copy)]
pub struct Field {
    pub start: usize,
    pub length: usize,
    pub number: u32,
    pub label: u8,
    pub key: u8,
    pub kind: u8,
    pub reference: usize,
}

// An enum value's record (H, "Schema image"): its name, and its number in two's complement.
#[derive(Clone, Copy)]
pub struct Member {
    pub start: usize,
    pub length: usize,
    pub number: u32,
}

// What a name of a text, or the field of a node, stands for: a kind of node (10 for a map's entry), the enum or message that it
// refers to (the map field itself for an entry), and the field word of its nodes.
#[derive(Clone, Copy)]
pub struct Want {
    pub kind: u8,
    pub reference: usize,
    pub field: usize,
}

// A node's five words (H, "Node table").
#[derive(Clone, Copy)]
pub struct Node {
    pub kind: u32,
    pub field: u32,
    pub high: u32,
    pub low: u32,
    pub end: u32,
}

impl Node {
    // Messages and entries hold nodes.
    pub fn nests(self) -> bool
        ensures { result ≡ scope.nests self.kind }
    {
        matches!(self.kind, words::MESSAGE | words::ENTRY)
    }

    // Kinds 11 to 13.
    pub fn is_unknown(self) -> bool
        ensures { result ≡ table.is_unknown self.kind }
    {
        words::UNKNOWN_U32 <= self.kind && self.kind <= words::UNKNOWN_BYTES
    }

    // Strings, bytes and unknown bytes.
    pub fn is_run(self) -> bool
        ensures { result ≡ table.is_run self.kind }
    {
        matches!(
            self.kind,
            words::STRING | words::BYTES | words::UNKNOWN_BYTES
        )
    }

    // Where a node's values stand in print: a field's index, or 4,096 and the number of an unknown field.
    pub fn rank(self) -> usize
        ensures { result ≡ live.rank_of self }
    {
        if self.is_unknown() {
            FIRST_UNKNOWN + self.field as usize
        } else {
            self.field as usize
        }
    }

    // A number of 64 bits.
    pub fn number(self) -> u64
        ensures { result ≡ table.number_of self }
    {
        u64::from(self.high) << 32 | u64::from(self.low)
    }

    // The bytes of a string or of bytes, as a part of the pool.
    pub fn run(self, pool: &[u8]) -> &[u8]
        requires { self.high + self.low ≤ length pool.now }
        ensures { result.now ≡ table.run_of pool.now self }
    {
        let start = self.high as usize;
        &pool[start..start + self.low as usize]
    }
}

// Where a refusal points (02 §1): an offset in the text with its line and column, both counted from 1, the column in bytes; or no
// place in the text: the number that goes with the refusal, with line 0 and column 0. A text has at most 1,048,576 bytes.
#[derive(Clone, Copy)]
pub struct Place {
    pub offset: usize,
    pub line: u32,
    pub column: u32,
}

// The place of a refusal that has none, nor a number that goes with it.
pub const NO_PLACE: Place = Place {
    offset: 0,
    line: 0,
    column: 0,
};

// A refusal and its place.
#[derive(Clone, Copy)]
pub struct Refused {
    pub why: refusals::Refusal,
    pub at: Place,
}

// A token: what it is, and the place of its first byte. The kinds are those of specs/Tokens.antt.
#[derive(Clone, Copy)]
pub struct Token {
    pub kind: u8,
    pub start: Place,
}

// Where reading stands: in the text, in the node table and in the pool.
#[derive(Clone, Copy)]
pub struct Spot {
    pub at: usize,
    pub node: usize,
    pub byte: usize,
}

// How far the bytes so far are UTF-8: so many bytes are still to come, and the next one lies from low to high.
#[derive(Clone, Copy)]
pub struct Utf8 {
    pub left: u8,
    pub low: u8,
    pub high: u8,
}
