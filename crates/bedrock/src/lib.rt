// The vocabulary of the fabric: why a call is refused, how large a fabric is, what a block holds, and who sends to whom.
#![tactic(auto)]

pub mod geometry;
pub mod party;
pub mod refusal;
pub mod words;
