// Compact and pretty print of a node table (after the original's print.rs, its names kept where the thing is the same).
// One set of functions for both passes and both styles: each takes a lent buffer and a place and gives the place after its text.
// A byte is stored where there is room for it, so over an empty part of the buffer the same functions only count.
// Kept: no writer that holds buffer and place, since the place goes by value and is handed back, document 01's form of a cursor.
// What prints one field is marked `#[inline(always)]`, here, in fields and in live, so that all of it is one function for LLVM: a print
// takes 10 % fewer instructions so.
#![tactic(auto)]

pub mod body;
pub mod order;
pub mod span;
pub mod text;
