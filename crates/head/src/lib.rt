// The head end of one line: its table of places, its frames and their dockets.
#![tactic(auto)]

pub mod docket;
pub mod head;
pub mod refusal;
pub mod table;
