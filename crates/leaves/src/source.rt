// What a text is read with: the text, the schema, and the two constant tables, lent down.
ghost use Rattle.std.specs.Prelude.{◌≡◌, ◌≤◌, length};
ghost use Rattle.definitions.specs.Refusals.{most_text};

use crate::Position;
use definitions::Token;
use lexer::{ClassTable, Cursor, Step};
use records::Schema;
use strings::Escapes;

// A text of lawful length, a schema, the classes of bytes and the escape letters.
#[derive(Clone, Copy)]
pub struct Source<'a> {
    pub text: &'a [u8],
    pub schema: Schema<'a>,
    pub table: &'a ClassTable,
    pub letters: &'a Escapes,
    pub ghost short: { length text.now ≤ most_text },
}

impl Source<'_> {
    ghost use Rattle.definitions.specs.Tokens.{scan};
    ghost use Rattle.lexer.specs.Steps.{step_of};
    ghost use Rattle.definitions.specs.Basics.{part};
    ghost use Rattle.leaves.specs.Answers.{Fair, Reached};

    // The next token from a position on, and the cursor behind it.
    pub fn next(&self, from: Position) -> Step
        requires { Fair self.now.text.now from }
        ensures { result ≡ step_of self.now.text.now (scan self.now.text.now from.spot.at) }
    {
        from.cursor().next(self.text, self.table)
    }

    // The same where a colon is due.
    pub fn colon(&self, from: Position) -> Step
        requires { Fair self.now.text.now from }
        ensures { result ≡ step_of self.now.text.now (scan self.now.text.now from.spot.at) }
    {
        from.cursor().colon(self.text, self.table)
    }

    // The bytes of a token, up to the cursor behind it.
    pub fn bytes_of(&self, t: Token, after: Cursor) -> &[u8]
        requires { Reached self.now.text.now t after.at }
        ensures { result.now ≡ part self.now.text.now t.start.offset after.at }
    {
        let from = t.start.offset;
        let to = after.at;
        &self.text[from..to]
    }
}
