// The limits that refusals and validity speak of (specs/Refusals.antt).

// The longest text, in bytes.
pub const MOST_TEXT: usize = 1048576;

// The longest node table.
pub const MOST_NODES: usize = 65535;

// The deepest message or entry.
pub const MOST_DEPTH: usize = 32;

// The greatest field number.
pub const MOST_NUMBER: usize = 536870911;

// The words of a node.
pub const NODE_WORDS: usize = 5;

// The rank of an unknown field is this and its number; below it lie the fields' indices, which have 12 bits.
pub const FIRST_UNKNOWN: usize = 4096;
