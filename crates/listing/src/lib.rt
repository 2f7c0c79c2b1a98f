// What a sheet says, in words: a line for its head, and one for each record.
#![tactic(auto)]

mod details;
pub mod lines;
pub mod list;
