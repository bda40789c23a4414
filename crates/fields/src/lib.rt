// The text of a field around what lies inside it: its label, its braces, and a value that holds no nodes.
#![tactic(auto)]

pub mod labels;
pub mod values;

// The two prints of a table: on one line, or a field to a line.
#[derive(Clone, Copy, PartialEq, Eq)]
pub enum Style {
    Compact,
    Pretty,
}
