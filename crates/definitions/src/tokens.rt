// Kinds of tokens (specs/Tokens.antt): the end of the text, names, integers and strings; a symbol's kind is its byte.
// Kept: numbers, since the definitions' token has one, and a symbol's is its byte (Tokens `token_of`).
pub const END: u8 = 0;

pub const NAME: u8 = 1;

pub const INTEGER: u8 = 2;

pub const STRING: u8 = 3;

pub const MINUS: u8 = b'-';

pub const COLON: u8 = b':';

pub const OPEN_ANGLE: u8 = b'<';

pub const CLOSE_ANGLE: u8 = b'>';

pub const OPEN_BRACE: u8 = b'{';

pub const CLOSE_BRACE: u8 = b'}';
