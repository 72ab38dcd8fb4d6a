// A receiver's report of one frame: 53 records of 18 bytes, in the order of the slots.
#![tactic(auto)]

pub mod laws;
pub mod offset;
pub mod record;
