// The ONU: its ten states, the events that move it, and how it answers grants.
#![tactic(auto)]

pub mod answer;
pub mod event;
pub mod facts;
pub mod state;
pub mod step;
