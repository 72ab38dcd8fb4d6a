// What a cell holds, read out of its 48 bytes and written into them.
use field::grants::Grants;
use message::downstream::Downstream;

pub mod read;
pub mod write;

#[derive(Clone, Copy)]
pub struct Contents {
    // the frame bit: whether this is the first cell of its frame
    pub first: bool,
    pub grants: Grants<27>,
    pub message: Downstream,
}
