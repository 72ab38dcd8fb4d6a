// A line that is driven: whatever is called, its calls are a succession of the laws over whole runs.
#![tactic(auto)]

pub mod driven;
pub mod halt;
pub mod laws;
