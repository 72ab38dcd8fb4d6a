// An ONU on the bench: the state table exactly, with no choice left to it.
#![tactic(auto)]

pub mod bench_onu;
mod ear;
mod machine;
