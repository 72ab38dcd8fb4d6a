// A line of bench ONUs, driven by a script of lines and told as lines.
#![tactic(auto)]

mod command;
pub mod run;
pub mod shown;
pub mod words;
