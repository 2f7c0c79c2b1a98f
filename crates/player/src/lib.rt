// Run sheets played: the contents of a sheet go into the memory, its calls to the fabric, and each record has a line.
// What its functions hand on side by side (blocks, early, place, heap) changes at different times: no struct of it would outlive a call.
#![tactic(auto)]

mod calls;
pub mod coherence;
mod contents;
pub mod examples;
mod lines;
pub mod play;
mod printing;
