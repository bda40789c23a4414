// What helps a person along: the names of messages and enums, what was expected at a place of a text, and the known names nearest to a word.
#![tactic(auto)]

pub mod catalog;
pub mod nearest;
pub mod scene;
pub mod titles;
