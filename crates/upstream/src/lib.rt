// The messages that an ONU sends in the PLOAM channel, twelve bytes each.
#![tactic(auto)]

pub mod fault;
pub mod message;
