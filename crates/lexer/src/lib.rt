// Tokens of a text (T, H, "Tokens and grammar"): byte classes and the scanner.
#![tactic(auto)]

pub mod classes;
pub mod tokens;

pub use classes::ClassTable;
pub use tokens::{Cursor, Line, Step};
