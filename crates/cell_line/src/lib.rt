// A line of text read back as a cell.
#![tactic(auto)]

pub mod line;
mod parse;
mod run;
pub mod wanted;
