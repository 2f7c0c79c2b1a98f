// The states of a block, what a protocol is, and the eight BedRock protocols.
#![tactic(auto)]

pub mod protocol;
pub mod protocol_kind;
pub mod row;
pub mod state;
pub mod tables;
