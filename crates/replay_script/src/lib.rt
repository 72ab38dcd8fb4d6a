// Calls on a head as lines of text, and their answers.
#![tactic(auto)]

mod call;
mod held;
pub mod run;
pub mod session;
mod shown;
