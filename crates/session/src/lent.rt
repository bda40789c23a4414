// What calls are lent. Each word and byte of it holds the same beforehand, so that it can be told what a call left alone.
use text_format::Made;

pub(crate) const WORD: u32 = 0xa5a5a5a5;

pub(crate) const BYTE: u8 = 0xa5;

// Whether all of them still hold what they were filled with.
pub(crate) fn are_kept(words: &[u32], bytes: &[u8]) -> bool {
    words.iter().all(|w| *w == WORD) && bytes.iter().all(|b| *b == BYTE)
}

// The words and bytes that a read was lent: the table and the pool that it made, and whether all else still is what it was filled with.
#[derive(Clone, Copy)]
pub(crate) struct Parts<'a> {
    pub(crate) table: &'a [u32],
    pub(crate) pool: &'a [u8],
    pub(crate) is_kept: bool,
}

impl<'a> Parts<'a> {
    // Where this was made. Where a count went over its room, what is there is made.
    pub(crate) fn of(words: &'a [u32], bytes: &'a [u8], made: Made) -> Parts<'a> {
        let (table, words) = words.split_at(5 * made.nodes.min(words.len() / 5));
        let (pool, bytes) = bytes.split_at(made.bytes.min(bytes.len()));
        Parts {
            table,
            pool,
            is_kept: are_kept(words, bytes),
        }
    }
}
