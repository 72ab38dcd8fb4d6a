// Where things stand in the picture of a life.

pub const MARGIN: u64 = 40;

pub const AXIS_WIDTH: u64 = 1200;

// The words of the last signs stand right of the axis.
pub const WIDTH: u64 = MARGIN + AXIS_WIDTH + WORDS_WIDTH;

// Words stand on five steps above the phases, and on as many below.
pub const STEP: u64 = 14;

pub const WORDS_WIDTH: u64 = 140;

pub const TOP: u64 = 40 + 5 * STEP;

pub const PHASE_HEIGHT: u64 = 30;

pub const BOTTOM: u64 = TOP + PHASE_HEIGHT;

// Below them runs the axis.
pub const AXIS_TOP: u64 = BOTTOM + 5 * STEP + 16;

pub const HEIGHT: u64 = AXIS_TOP + 64;
