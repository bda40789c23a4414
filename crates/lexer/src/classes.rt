// Byte classes stand in a table of 256 entries (T, H, "Tokens and grammar"); the rule of the table is `class_rule`.
ghost use Rattle.std.specs.Prelude.{◌≡◌};
ghost use Rattle.definitions.specs.Classes.{classes, class, class_rule};

// The classes rise so that one comparison tells what is plain inside a string (5 and up), what goes on a name (9 and up) and what begins
// one (10); what separates is 4 to 6. Those with no name here: 0 the zero byte, 1 a byte over 127, 2 the backslash, 7 what no token
// begins with, 10 letters and `_`.
//
// Kept: numbers and no enum, since the definitions' table holds numbers, and one comparison tells several of them.

// `"` and `'`
pub const QUOTE: u8 = 3;

pub const NEWLINE: u8 = 4;

// space, tab, return, vertical tab, form feed
pub const SPACE: u8 = 5;

// `#`
pub const COMMENT: u8 = 6;

// `{ } < > : - [ ] , ;`
pub const SYMBOL: u8 = 8;

pub const DIGIT: u8 = 9;

// The class of each byte.
pub const CLASSES: [u8; 256] = [
    0, 7, 7, 7, 7, 7, 7, 7, 7, 5, 4, 5, 5, 5, 7, 7, 7, 7, 7, 7, 7, 7, 7, 7, 7, 7, 7, 7, 7, 7, 7, 7,
    5, 7, 3, 6, 7, 7, 7, 3, 7, 7, 7, 7, 8, 8, 7, 7, 9, 9, 9, 9, 9, 9, 9, 9, 9, 9, 8, 8, 8, 7, 8, 7,
    7, 10, 10, 10, 10, 10, 10, 10, 10, 10, 10, 10, 10, 10, 10, 10, 10, 10, 10, 10, 10, 10, 10, 10,
    10, 10, 10, 8, 2, 8, 7, 10, 7, 10, 10, 10, 10, 10, 10, 10, 10, 10, 10, 10, 10, 10, 10, 10, 10,
    10, 10, 10, 10, 10, 10, 10, 10, 10, 10, 8, 7, 8, 7, 7, 1, 1, 1, 1, 1, 1, 1, 1, 1, 1, 1, 1, 1,
    1, 1, 1, 1, 1, 1, 1, 1, 1, 1, 1, 1, 1, 1, 1, 1, 1, 1, 1, 1, 1, 1, 1, 1, 1, 1, 1, 1, 1, 1, 1, 1,
    1, 1, 1, 1, 1, 1, 1, 1, 1, 1, 1, 1, 1, 1, 1, 1, 1, 1, 1, 1, 1, 1, 1, 1, 1, 1, 1, 1, 1, 1, 1, 1,
    1, 1, 1, 1, 1, 1, 1, 1, 1, 1, 1, 1, 1, 1, 1, 1, 1, 1, 1, 1, 1, 1, 1, 1, 1, 1, 1, 1, 1, 1, 1, 1,
    1, 1, 1, 1, 1, 1, 1, 1, 1, 1, 1, 1, 1, 1, 1, 1, 1, 1, 1,
];

// The table, for the outermost caller to hold in a local and lend down.
#[derive(Clone, Copy)]
pub struct ClassTable {
    pub table: [u8; 256],
    pub ghost kept: { table ≡ classes },
}

impl ClassTable {
    pub fn new() -> ClassTable {
        ClassTable { table: CLASSES }
    }

    // The class of a byte, as the rule has it.
    pub fn class(&self, b: u8) -> u8
        ensures { (result ≡ class b) × (result ≡ class_rule b) }
    {
        self.table[usize::from(b)]
    }
}
