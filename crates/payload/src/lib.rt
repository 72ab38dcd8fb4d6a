// The payload of the downstream PLOAM cell, 48 bytes, and of a frame's two cells.
#![tactic(auto)]

pub mod contents;
pub mod export;
pub mod frame;
pub mod laws;
