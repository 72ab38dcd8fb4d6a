// A head, a plant, and the bursts that are still to be reported.
use head::head::Head;
use plant::burst::Burst;

pub mod change;
pub mod look;
pub mod operate;
pub mod send;
pub mod settle;

// Its parts are moved by its calls alone.
#[derive(Drop)]
pub struct Line<P> {
    head: Head,
    plant: P,
    // of the frames that are out
    bursts: Vec<Burst>,
}
