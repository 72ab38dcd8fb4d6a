// A frame axis from the scenario's start to the next frame.
ghost use Rattle.std.specs.Prelude.{◌<◌};

use super::layout::{AXIS_TOP, AXIS_WIDTH, MARGIN};
use crate::svg::{Centred, Colour, GROUP_END, Label, Paint, Rect};
use std::fmt;

#[derive(Clone, Copy)]
pub struct Axis {
    pub start: u64,
    pub now: u64,
}

impl Axis {
    fn frames(&self) -> u64
        ensures { 0 < result }
    {
        self.now.saturating_sub(self.start).max(1)
    }

    // How far right a frame stands.
    pub fn at(&self, frame: u64) -> u64 {
        let since = frame.saturating_sub(self.start).min(self.frames());
        (since.saturating_mul(AXIS_WIDTH) / self.frames()).saturating_add(MARGIN)
    }

    // How far ticks are apart: a power of two, by which there are 4 to 9 of them.
    fn step(&self) -> u64
        ensures { 0 < result }
    {
        (self.frames() / 8)
            .checked_next_power_of_two()
            .unwrap_or(1)
            .max(1)
    }

    fn tick<W: fmt::Write>(&self, f: &mut fmt::Formatter<W>, frame: u64) -> fmt::Result {
        let x = self.at(frame);
        let tick = Rect {
            x,
            y: AXIS_TOP,
            width: 1,
            height: 6,
            paint: Paint::Filled(Colour::Ink),
        };
        let label = Label {
            x,
            y: AXIS_TOP + 18,
            text: frame,
        };
        write!(f, "{tick}{label}")
    }
}

impl fmt::Display for Axis {
    fn fmt<W: fmt::Write>(&self, f: &mut fmt::Formatter<W>) -> fmt::Result {
        let line = Rect {
            x: MARGIN,
            y: AXIS_TOP,
            width: AXIS_WIDTH,
            height: 1,
            paint: Paint::Filled(Colour::Ink),
        };
        let group = Centred(0);
        write!(f, "{group}{line}")?;
        let step = self.step();
        let first = self.start.div_ceil(step);
        for k in 0..10 {
            let frame = first.saturating_add(k).saturating_mul(step);
            if frame <= self.now {
                self.tick(f, frame)?;
            }
        }
        f.write_str(GROUP_END)
    }
}
