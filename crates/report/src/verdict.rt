// What a call comes to, the worse the greater.
#[derive(Clone, Copy, PartialEq, Eq, PartialOrd, Ord)]
pub enum Verdict {
    Taken,
    Refused,
    Wrong,
}
