// Cells, frames, messages to the ONUs and faults as text.
#![tactic(auto)]

pub mod kind;
pub mod run;
pub mod show;
