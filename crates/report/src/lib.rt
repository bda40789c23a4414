// What a person is told: a call's words and files in, refusals in words that a grower understands, help, and the verdict.
#![tactic(auto)]

pub mod call;
pub mod failure;
pub mod files;
pub mod help;
mod hint;
pub mod place;
pub mod refusal;
pub mod rooms;
pub mod verdict;
