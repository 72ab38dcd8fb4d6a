// The messages that the head sends in the PLOAM channel, twelve bytes each.
#![tactic(auto)]

pub mod downstream;
pub mod fault;
