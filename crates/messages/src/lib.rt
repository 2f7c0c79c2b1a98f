// The messages of the fabric: four families, one for each channel.
#![tactic(auto)]

pub mod command;
pub mod family;
pub mod memory_command;
pub mod request;
pub mod response;
