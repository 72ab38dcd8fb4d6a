// The bench receiver: it makes a frame's report of the bursts that came.
#![tactic(auto)]

pub mod receive;
