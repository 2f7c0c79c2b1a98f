// What every call of the fabric means, and what coherence says of every list of calls. The definitions stand in specs/; the code
// has the types that they speak of, and functions whose contracts carry the theorems.
#![tactic(auto)]

pub mod answer;
pub mod coherence;
pub mod examples;
pub mod fabric_call;
pub mod holding;
pub mod order;
pub mod transaction;
