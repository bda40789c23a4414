// The escape letters stand in one small table.
ghost use Rattle.std.specs.Prelude.{◌≡◌};
ghost use Rattle.definitions.specs.Strings.{escapes, find_escape, letter_piece};
ghost use Rattle.strings.specs.Rows.{rows};
ghost use Rattle.strings.specs.Values.{told};

// A piece of a string: the byte that it stands for and how many bytes it takes.
#[derive(Clone, Copy)]
pub struct Piece {
    pub byte: u8,
    pub count: usize,
}

// The letters, each with its byte: \a \b \f \n \r \t \v \? \\ \' \"
const ESCAPES: [(u8, u8); 11] = [
    (b'a', 7),
    (b'b', 8),
    (b'f', 12),
    (b'n', 10),
    (b'r', 13),
    (b't', 9),
    (b'v', 11),
    (b'?', b'?'),
    (b'\\', b'\\'),
    (b'\'', b'\''),
    (b'"', b'"'),
];

// The table, for the outermost caller to hold in a local and lend down.
#[derive(Clone, Copy)]
pub struct Escapes {
    pub table: [(u8, u8); 11],
    pub ghost kept: { table ≡ rows escapes },
}

impl Escapes {
    pub fn new() -> Escapes {
        Escapes { table: ESCAPES }
    }

    // The piece of an escape by a letter: the letter's row in the table.
    pub(crate) fn piece(&self, letter: u8) -> Option<Piece>
        ensures { result ≡ told (letter_piece (find_escape letter)) }
    {
        let row = self.table.iter().find(|row| row.0 == letter)?;
        Some(Piece {
            byte: row.1,
            count: 2,
        })
    }
}
