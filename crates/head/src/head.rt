// The head of one line.
use crate::table::Table;
use rules::settings::Settings;

pub mod frames;
pub mod look;
pub mod operate;

// Each of its calls is answered, whatever it is handed.
#[derive(Drop)]
pub struct Head {
    table: Table,
    settings: Settings,
    // the frame that is sent next
    frame: u64,
    // frames that are sent and not settled
    out: u64,
    // a frame was sent or an ONU entered
    started: bool,
}
