// The rooms that calls are answered in: 7,605,209 bytes in all, which the program has on its stack, of the usual 8 MiB, beside 98,304 for
// the call's words, a script's input and what is written.

// A schema image. The longest that can be accepted has 132,593 bytes; of a longer one what is read can't be accepted either.
pub const IMAGE_LENGTH: usize = 132608;

// A text. One byte over the limit tells that a text is too long.
pub const TEXT_LENGTH: usize = 1048577;

// The words of a table. The largest has 327,675.
pub const WORDS_LENGTH: usize = 327675;

// A pool. A text within the limit brings no longer one.
pub const POOL_LENGTH: usize = 1048576;

// What is shown of settings.
pub const SHOWN_LENGTH: usize = 1572864;

// What a logger is lent: its schema image, and a node table with its pool.
#[derive(Drop)]
pub struct Logger {
    pub image: [u8; IMAGE_LENGTH],
    pub words: [u32; WORDS_LENGTH],
    pub pool: [u8; POOL_LENGTH],
}

// What a call is lent: a text, one logger and an older one, and what is shown.
#[derive(Drop)]
pub struct Rooms {
    pub text: [u8; TEXT_LENGTH],
    pub logger: Logger,
    pub older: Logger,
    pub shown: [u8; SHOWN_LENGTH],
}

const LOGGER: Logger = Logger {
    image: [0; IMAGE_LENGTH],
    words: [0; WORDS_LENGTH],
    pool: [0; POOL_LENGTH],
};

// All zero.
pub const EMPTY: Rooms = Rooms {
    text: [0; TEXT_LENGTH],
    logger: LOGGER,
    older: LOGGER,
    shown: [0; SHOWN_LENGTH],
};
