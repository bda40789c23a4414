// What the readers of values share: what they read, where they stand and what they answer, and a leaf's words in the table.
#![tactic(auto)]

mod ranges;
mod source;
mod store;

ghost use Rattle.std.specs.Prelude.{◌≡◌};
ghost use Rattle.definitions.specs.Reading.{moved};

use definitions::Spot;
use lexer::{Cursor, Line};
pub use ranges::{is_broken, most_signed, most_unsigned, widened};
pub use source::Source;
pub use store::{put, put_body, put_number};

// Where reading stands, and the line of that place.
#[derive(Clone, Copy)]
pub struct Position {
    pub spot: Spot,
    pub line: Line,
}

impl Position {
    // The place in the text, and its line.
    pub fn cursor(self) -> Cursor
        ensures { result ≡ record { at = self.spot.at; line = self.line } }
    {
        Cursor {
            at: self.spot.at,
            line: self.line,
        }
    }

    // The same nodes and bytes, up to a cursor.
    pub fn moved(self, to: Cursor) -> Position
        ensures { result ≡ record { spot = moved to.at self.spot; line = to.line } }
    {
        Position {
            spot: Spot {
                at: to.at,
                ..self.spot
            },
            line: to.line,
        }
    }
}
