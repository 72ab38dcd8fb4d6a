// An equalization delay in bits: none outside 0 to 32,000 can exist.
use crate::number::Number;

pub type Delay = Number<32000>;
