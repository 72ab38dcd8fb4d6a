// What the lines of text are made of: bytes as digits, keys, and values after their keys.
#![tactic(auto)]

pub mod hex;
pub mod key;
pub mod value;
