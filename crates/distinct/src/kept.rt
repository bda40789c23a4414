// What is kept of the records passed: a number above all of theirs is new, and so is a name with a mark that none of them has.
ghost use Rattle.std.specs.Prelude.{◌≡◌, nat_lt, nat_eq, ◌&&◌, ◌/◌, ◌%◌, ◌^◌, max, ◌<◌};
ghost use Rattle.std.specs.Int.Bits.{bit_or};
ghost use Rattle.distinct.specs.Seen.{mark_of};

// Which of 64 marks their names have, a bit each, and their greatest number.
#[derive(Clone, Copy)]
pub(crate) struct Kept {
    pub marks: u64,
    pub most: u32,
}

impl Kept {
    // Whether a name and a number are both new.
    pub(crate) fn lacks(self, text: &[u8], number: u32) -> bool
        ensures { result ≡ (nat_lt self.most number && nat_eq (self.marks / 2 ^ mark_of text.now % 2) 0) }
    {
        self.most < number && (self.marks >> mark(text)) % 2 == 0
    }

    // The same with one more record.
    pub(crate) fn with(self, text: &[u8], number: u32) -> Kept
        ensures { result ≡ record { marks = bit_or self.marks (2 ^ mark_of text.now); most = max self.most number } }
    {
        Kept {
            marks: self.marks | (1 << mark(text)),
            most: self.most.max(number),
        }
    }
}

// One of 64 marks, by a name's length and its outer bytes.
#[tactic(auto, unfolding(crate::specs::Seen::mark_of))]
fn mark(text: &[u8]) -> usize
    ensures at { result ≡ mark_of text.now }
    ensures below { result < 64 }
{
    match text {
        [] => 0,
        [first, ..] => {
            let last = text[text.len() - 1];
            (text.len() % 64 + 7 * usize::from(*first) + 11 * usize::from(last)) % 64
        }
    }
}
