// Refusals (H, "Refusal numbers"), by the names of specs/Refusals.antt, with document 01's numbers.
ghost use Rattle.std.specs.Prelude.{◌≡◌};
ghost use Rattle.definitions.specs.Refusals.{unplaced};
ghost use Rattle.definitions.specs.Refused.{number_of};

use crate::{Place, Refused};

#[derive(Clone, Copy, PartialEq, Eq, Debug)]
pub enum Refusal {
    BadSchema = 1,
    NoMessage = 2,
    TextTooLong = 3,
    BadToken = 4,
    OtherExpected = 5,
    UnknownField = 6,
    UnknownValue = 7,
    Twice = 8,
    Overflow = 9,
    NotBool = 10,
    BadString = 11,
    TooDeep = 12,
    NodesShort = 13,
    PoolShort = 14,
    BadTable = 15,
    BufferShort = 16,
    RequiredMissing = 17,
    NoValue = 18,
}

impl Refusal {
    // The refusal at a place.
    pub fn at(self, place: Place) -> Refused
        ensures { result ≡ record { why = self; at = place } }
    {
        Refused {
            why: self,
            at: place,
        }
    }

    // The refusal with no place in the text, but a number that goes with it (02 §1).
    pub fn unplaced(self, n: usize) -> Refused
        ensures { result ≡ record { why = self; at = unplaced n } }
    {
        self.at(Place {
            offset: n,
            line: 0,
            column: 0,
        })
    }

    // Document 01's number.
    pub fn number(self) -> u8
        ensures { result ≡ number_of self }
    {
        self as u8
    }
}
