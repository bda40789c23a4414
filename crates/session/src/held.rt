// A room of which the front is in use.
ghost use Rattle.std.specs.Prelude.{◌≤◌, length};

#[derive(Drop)]
pub(crate) struct Held<'a, T> {
    room: &'a mut [T],
    used: usize,
    ghost inside: { used ≤ length room.now },
}

impl<'a, T: Copy> Held<'a, T> {
    // Nothing, in this room.
    pub(crate) fn nothing(room: &'a mut [T]) -> Held<'a, T> {
        Held { room, used: 0 }
    }

    pub(crate) fn items(&self) -> &[T] {
        &self.room[..self.used]
    }

    // Holds these instead, as many of them as there is room for.
    pub(crate) fn hold(&mut self, items: &[T]) {
        self.used = streams::line::copy(items, self.room);
    }

    // The same, where there is room for all; else nothing is changed.
    pub(crate) fn hold_whole(&mut self, items: &[T]) -> Option<()> {
        if items.len() > self.room.len() {
            return None;
        }
        self.hold(items);
        Some(())
    }
}

impl Held<'_, u32> {
    // Holds the words that four bytes each make, most significant byte first, as many of them as there is room for.
    pub(crate) fn hold_words(&mut self, words: &[[u8; 4]]) {
        for (word, bytes) in self.room.iter_mut().zip(words) {
            *word = u32::from_be_bytes(*bytes);
        }
        self.used = words.len().min(self.room.len());
    }
}
