// What happens at the directory and at the memory: requests and responses that arrive, and the memory's turns. Free functions,
// since the parts are another crate's type.
#![tactic(auto)]

mod counts;
pub mod memory_turns;
pub mod requests;
pub mod responses;
mod round_two;
