// A line of bench ONUs in 65 ports, as one plant.
#![tactic(auto)]

pub mod tree;
