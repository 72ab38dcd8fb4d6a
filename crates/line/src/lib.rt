// What holds of every succession of calls on one head.
#![tactic(auto)]

pub mod laws;
