// Bytes in and out, for programs: parts of slices, numbers in decimal, standard input line by line, and what is written, by way of a buffer.
#![tactic(auto)]

pub mod line;
pub mod lines;
pub mod number;
pub mod out;
