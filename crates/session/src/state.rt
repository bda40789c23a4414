// The state between requests.
use crate::held::Held;

#[derive(Drop)]
pub(crate) struct State<'a> {
    pub(crate) image: Held<'a, u8>,
    pub(crate) older: Held<'a, u8>,
    pub(crate) root: usize,
    pub(crate) table: Held<'a, u32>,
    pub(crate) pool: Held<'a, u8>,
}

impl<'a> State<'a> {
    // Before the first request, in these rooms.
    pub(crate) fn new(
        image: &'a mut [u8],
        older: &'a mut [u8],
        table: &'a mut [u32],
        pool: &'a mut [u8],
    ) -> State<'a> {
        State {
            image: Held::nothing(image),
            older: Held::nothing(older),
            root: 0,
            table: Held::nothing(table),
            pool: Held::nothing(pool),
        }
    }
}
