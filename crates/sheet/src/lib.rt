// Run sheets: the head and the records of a sheet, how they lie in bytes, and the reader that draws them.
#![tactic(auto)]

pub mod head;
pub mod kinds;
mod parse;
pub mod reader;
pub mod records;
pub mod sheets;
