// What a line says of a cell.
use field::grant::Grant;
use message::downstream::Downstream;

#[derive(Clone, Copy)]
pub struct Cell {
    // whether it is the first cell of its frame
    pub first: bool,
    pub grants: [Grant; 27],
    pub message: Downstream,
}
