// The fabric: a directory, caches, four channels and a memory, generic over protocol, channels and memory.
#![tactic(auto)]

pub mod build;
pub mod calls;
pub mod questions;
pub mod shown;
pub mod state;
