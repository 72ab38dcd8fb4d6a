// A downstream PLOAM cell of 48 bytes, read in place.
#![tactic(auto)]

pub mod fault;
pub mod reader;
