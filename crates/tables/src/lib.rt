// The tables of a fabric: fixed room for the largest geometry, and accessors that take every key. Outside its places a table
// shows what a reader names, or the blank of its type, and a write there changes nothing. So no step that uses one has a key to check.
// Keys are numbers side by side: they come from different places (a block, a message, a loop), so that a struct of them would be made at
// each call. Fixed arrays and no heap, so that building a fabric cannot fail.
#![tactic(auto)]

pub mod blank;
pub mod by_set_cache;
pub mod by_way;
pub mod column;
#[cfg(test)]
mod tests;
