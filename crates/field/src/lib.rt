// The fields of which cells and messages are made, and the byte that protects them.
#![tactic(auto)]

pub mod bounded;
pub mod bytes;
pub mod check;
pub mod coded;
pub mod delay;
pub mod grant;
pub mod grants;
pub mod minislot;
pub mod number;
pub mod octets;
