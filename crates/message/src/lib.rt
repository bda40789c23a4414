// What a valid node table says (document 01): whether a required field is missing, and the bytes of a value.
#![tactic(auto)]

pub mod access;
pub mod required;
