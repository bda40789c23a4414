// The settings of a file: a node table with its pool, under a schema.
use definitions::Refused;
use definitions::limits::{MOST_NODES, NODE_WORDS};
use records::Schema;
use report::call::Asked;
use std::fmt;
use streams::line;
use text_format::Style;

#[derive(Clone, Copy)]
pub(crate) struct Table<'a> {
    pub(crate) image: &'a [u8],
    pub(crate) root: usize,
    pub(crate) nodes: &'a [u32],
    pub(crate) pool: &'a [u8],
}

// How many words a logger's room for values has; the text itself takes one.
fn word_room(values: Option<usize>) -> usize {
    (values.unwrap_or(usize::MAX).min(MOST_NODES - 1) + 1) * NODE_WORDS
}

// The words of so many nodes.
fn nodes_of(words: &[u32], n: usize) -> &[u32] {
    line::front(words, NODE_WORDS * n.min(MOST_NODES))
}

impl<'a> Table<'a> {
    // So many nodes and bytes of the rooms.
    pub(crate) fn of(
        image: &'a [u8],
        root: usize,
        words: &'a [u32],
        bytes: &'a [u8],
        made: parse::Made,
    ) -> Table<'a> {
        Table {
            image,
            root,
            nodes: nodes_of(words, made.nodes),
            pool: line::front(bytes, made.bytes),
        }
    }

    // What a text holds, for a logger that has as much room as it is said to have.
    pub(crate) fn read(
        asked: &Asked,
        schema: &Schema<'a>,
        root: usize,
        text: &[u8],
        words: &'a mut [u32],
        bytes: &'a mut [u8],
    ) -> Result<Table<'a>, Refused> {
        let word_room = word_room(asked.values).min(words.len());
        let byte_room = asked.bytes.unwrap_or(usize::MAX).min(bytes.len());
        let words = &mut words[..word_room];
        let bytes = &mut bytes[..byte_room];
        let made = text_format::read(schema.image, root, text, words, bytes)?;
        Ok(Table::of(schema.image, root, words, bytes, made))
    }

    // How many values there are.
    pub(crate) fn values(&self) -> Values {
        Values(survey::values(self.image, self.root, self.nodes, self.pool))
    }

    // A required field that is missing.
    pub(crate) fn missing(&self) -> Option<usize> {
        survey::missing(self.image, self.root, self.nodes, self.pool)
    }

    // Prints the table, and answers how long the print is.
    pub(crate) fn print(&self, style: Style, shown: &mut [u8]) -> Result<usize, Refused> {
        match style {
            Style::Compact => text_format::print(
                self.image, self.root, self.nodes, self.pool, shown,
            ),
            Style::Pretty => {
                text_format::print_pretty(self.image, self.root, self.nodes, self.pool, shown)
            }
        }
    }
}

// `12 values`
#[derive(Clone, Copy)]
pub(crate) struct Values(usize);

impl fmt::Display for Values {
    fn fmt<W: fmt::Write>(&self, f: &mut fmt::Formatter<W>) -> fmt::Result {
        let count = self.0;
        let plural = if count == 1 { "" } else { "s" };
        write!(f, "{count} value{plural}")
    }
}
