// Kinds of nodes (H, "Node table"): 1 to 9 are the types of fields, 10 is a map entry, 11 to 13 are unknown u32, u64 and bytes.
// Kept: numbers and no enum, since images and tables are anyone's, and the definitions take whatever number stands there (Image `field_of`,
// Nodes `node_at`).
pub const I32: u8 = 1;

pub const I64: u8 = 2;

pub const U32: u8 = 3;

pub const U64: u8 = 4;

pub const BOOL: u8 = 5;

pub const STRING: u8 = 6;

pub const BYTES: u8 = 7;

pub const ENUM: u8 = 8;

pub const MESSAGE: u8 = 9;

pub const ENTRY: u8 = 10;

pub const UNKNOWN_U32: u8 = 11;

pub const UNKNOWN_U64: u8 = 12;

pub const UNKNOWN_BYTES: u8 = 13;

// The same as words of a node table.
// Kept: constants of their own, since a pattern takes no `u32::from`.
pub mod words {
    pub const I32: u32 = super::I32 as u32;

    pub const I64: u32 = super::I64 as u32;

    pub const U32: u32 = super::U32 as u32;

    pub const U64: u32 = super::U64 as u32;

    pub const BOOL: u32 = super::BOOL as u32;

    pub const STRING: u32 = super::STRING as u32;

    pub const BYTES: u32 = super::BYTES as u32;

    pub const ENUM: u32 = super::ENUM as u32;

    pub const MESSAGE: u32 = super::MESSAGE as u32;

    pub const ENTRY: u32 = super::ENTRY as u32;

    pub const UNKNOWN_U32: u32 = super::UNKNOWN_U32 as u32;

    pub const UNKNOWN_U64: u32 = super::UNKNOWN_U64 as u32;

    pub const UNKNOWN_BYTES: u32 = super::UNKNOWN_BYTES as u32;
}
