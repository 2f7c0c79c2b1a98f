// Writes run sheets: an open sheet takes records into the caller's buffer, a sealed one takes no more.
#![tactic(auto)]

mod encode;
pub mod laws;
pub mod open;
pub mod sealed;
