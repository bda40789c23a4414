// Labels of fields (H, "Schema image").
// Kept: numbers, as the kinds are (Image `field_of`).
pub const OPTIONAL: u8 = 0;

pub const REQUIRED: u8 = 1;

pub const REPEATED: u8 = 2;

pub const MAP: u8 = 3;
