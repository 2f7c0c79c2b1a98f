// What a fabric is built over, and the parts of a fabric, held together. Only the steps and the fabric itself use the parts: the fabric keeps
// them to itself.
#![tactic(auto)]

pub mod board;
pub mod home;
pub mod shown;
pub mod state;
