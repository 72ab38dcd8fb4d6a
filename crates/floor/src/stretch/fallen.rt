// Bursts where they fell.
use super::layout::{BURST_HEIGHT, BURST_TOP, FRAME_BITS, MARGIN, SLOT_BITS, UNIT};
use crate::svg::{Colour, Label, Paint, Rect};
use report::offset::Offset;
use report::record::{Light, Record};
use rules::settings::Settings;
use rules::slot::Slot;
use std::fmt;

// A burst in time, in bits: one that is on its target stands where its slot does.
#[derive(Clone, Copy)]
pub struct Fallen {
    place: u8,
    start: u64,
    end: u64,
    offset: Offset,
}

// The first bit of a slot.
fn first_bit(slot: Slot) -> u64 {
    let before = slot.x.saturating_sub(1).saturating_mul(SLOT_BITS);
    slot.frame.saturating_mul(FRAME_BITS).saturating_add(before)
}

impl Fallen {
    // The burst that a slot's record tells of, if any.
    pub fn of(slot: Slot, record: &Record, settings: &Settings) -> Option<Fallen> {
        let place = slot.owner(settings)?.value();
        let due = first_bit(slot);
        let start = match (record.light, record.offset) {
            (Light::Dark | Light::Broken, _) => return None,
            (_, Offset::Early(bits)) => due.checked_sub(u64::from(bits))?,
            (_, Offset::Late(bits)) => due.saturating_add(u64::from(bits)),
        };
        let long = SLOT_BITS - u64::from(settings.guard.value());
        Some(Fallen {
            place,
            start,
            end: start.saturating_add(long),
            offset: record.offset,
        })
    }

    // What of it lies in a frame.
    pub fn bar(&self, frame: u64) -> Option<Bar> {
        let begin = frame.saturating_mul(FRAME_BITS);
        let start = self.start.saturating_sub(begin) / UNIT;
        let end = self.end.saturating_sub(begin).min(FRAME_BITS) / UNIT;
        (start < end).then(|| Bar {
            x: start.saturating_add(MARGIN),
            width: end.saturating_sub(start),
            place: self.place,
            offset: self.offset,
        })
    }
}

// A burst, or the part of it that lies in one row.
#[derive(Clone, Copy)]
pub struct Bar {
    x: u64,
    width: u64,
    place: u8,
    offset: Offset,
}

impl Bar {
    fn rect(&self) -> Rect {
        Rect {
            x: self.x,
            y: BURST_TOP,
            width: self.width,
            height: BURST_HEIGHT,
            paint: Paint::Filled(Colour::Deep(self.place)),
        }
    }

    // How far from its target, if it is not on it.
    fn label(&self) -> Option<Label<Offset>> {
        match self.offset {
            Offset::Early(0) | Offset::Late(0) => None,
            offset => Some(Label {
                x: self.x.saturating_add(self.width / 2),
                y: BURST_TOP + BURST_HEIGHT + 11,
                text: offset,
            }),
        }
    }
}

impl fmt::Display for Bar {
    fn fmt<W: fmt::Write>(&self, f: &mut fmt::Formatter<W>) -> fmt::Result {
        let rect = self.rect();
        write!(f, "{rect}")?;
        match self.label() {
            Some(label) => write!(f, "{label}"),
            None => Ok(()),
        }
    }
}
