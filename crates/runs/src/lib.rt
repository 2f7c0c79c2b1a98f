// Runs of a fabric: a list of calls from its building on, with the promise of coherence.
#![tactic(auto)]

pub mod run;
