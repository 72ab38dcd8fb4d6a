// Plants: what stands at the far end of the fibre, behind one interface.
#![tactic(auto)]

pub mod burst;
pub mod hearing;
pub mod plant;
