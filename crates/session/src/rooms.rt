// The rooms that requests are answered in: 7,927,360 bytes in all with the buffers of what is read and written, which a program has on its
// stack, of the usual 8 MiB; so it wants an optimized build, which keeps one copy of each.

// The line that is answered, and what it is printed into. The longest that is asked for is a table of 65,536 nodes, 2,621,442 bytes.
pub const LINE_LENGTH: usize = 2621504;

pub type Line = [u8; LINE_LENGTH];

// A schema image. The longest that can be accepted has 132,593 bytes.
pub const IMAGE_LENGTH: usize = 132608;

pub type Image = [u8; IMAGE_LENGTH];

// The node table of the state. The largest valid table has 327,675 words.
pub const TABLE_LENGTH: usize = 327680;

pub type Table = [u32; TABLE_LENGTH];

// The node words that a read is lent: more than the largest table has, to show that room beyond it changes nothing.
pub const WORDS_LENGTH: usize = 400000;

pub type Words = [u32; WORDS_LENGTH];

// A pool, of the state or lent to a read. A text within the limit brings no longer one.
pub const POOL_LENGTH: usize = 1048576;

pub type Pool = [u8; POOL_LENGTH];

// All of them: `image`, `older`, `table` and `pool` hold the state between requests, `words` and `bytes` are lent to what is read.
#[derive(Drop)]
pub struct Rooms {
    pub line: Line,
    pub image: Image,
    pub older: Image,
    pub table: Table,
    pub pool: Pool,
    pub words: Words,
    pub bytes: Pool,
}

pub const EMPTY: Rooms = Rooms {
    line: [0; LINE_LENGTH],
    image: [0; IMAGE_LENGTH],
    older: [0; IMAGE_LENGTH],
    table: [0; TABLE_LENGTH],
    pool: [0; POOL_LENGTH],
    words: [0; WORDS_LENGTH],
    bytes: [0; POOL_LENGTH],
};
