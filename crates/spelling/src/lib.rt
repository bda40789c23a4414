// How numbers and bytes are spelled, into a lent buffer (after the original's print.rs). Each function takes a place and gives the place
// after its text; a byte is stored where there is room for it, so over an empty part of the buffer the same functions only count.
// Kept: the buffer and the place apart, since the place goes by value and is handed back, document 01's form of a cursor.
#![tactic(auto)]

pub mod numbers;
pub mod put;
pub mod strings;
