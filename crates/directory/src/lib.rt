// The directory: what it shows of each block, and what accepting a request decides.
// A cache and a block stand side by side, since each question pairs them anew.
#![tactic(auto)]

pub mod batch;
pub mod first_round;
pub mod lookup;
pub mod plan;
pub mod settle;
pub mod state;
