// What happens at a cache: its orders, and the commands that arrive there. Free functions, since the parts are another crate's type.
#![tactic(auto)]

pub mod commands;
pub mod orders;
