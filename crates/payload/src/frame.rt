// A frame: two cells, 53 grants and two messages.
use field::grants::Grants;
use message::downstream::Downstream;

pub mod read;
pub mod write;

#[derive(Clone, Copy)]
pub struct Frame {
    pub grants: Grants<53>,
    // the message of the first cell, and that of the second
    pub first: Downstream,
    pub second: Downstream,
}
