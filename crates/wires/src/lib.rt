// The wires of the fabric: what a channel is, and three kinds of it.
#![tactic(auto)]

pub mod channel;
pub mod paired;
pub mod single_file;
#[cfg(test)]
mod tests;
pub mod unordered;
pub mod wire;
