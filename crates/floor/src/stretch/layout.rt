// Where things stand in the picture of a stretch.

// Bits of a unit; a slot of 448 bits is 28 units wide.
pub const UNIT: u64 = 16;

pub const SLOT_BITS: u64 = 448;

pub const FRAME_BITS: u64 = 53 * SLOT_BITS;

pub const SLOT_WIDTH: u64 = SLOT_BITS / UNIT;

// Left of the slots stand the frame numbers.
pub const MARGIN: u64 = 116;

pub const WIDTH: u64 = MARGIN + 53 * SLOT_WIDTH + 12;

// The first row.
pub const TOP: u64 = 28;

pub const ROW_HEIGHT: u64 = 64;

pub const TILE_HEIGHT: u64 = 24;

// In a row, the bursts stand below the tiles.
pub const BURST_TOP: u64 = TILE_HEIGHT + 3;

pub const BURST_HEIGHT: u64 = 14;

pub const LEGEND_HEIGHT: u64 = 36;

// The left edge of a slot, counted from 1.
pub fn left(x: usize) -> u64 {
    let slots = x.saturating_sub(1) as u64;
    slots.saturating_mul(SLOT_WIDTH).saturating_add(MARGIN)
}

// The middle of a slot.
pub fn middle(x: usize) -> u64 {
    left(x).saturating_add(SLOT_WIDTH / 2)
}
