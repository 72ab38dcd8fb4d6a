// A slot: whose it is, what it grants, and what went wrong in it.
use super::layout::{BURST_HEIGHT, BURST_TOP, SLOT_WIDTH, TILE_HEIGHT, left, middle};
use crate::picture::{Alike, Heard, Owner, Sent};
use crate::svg::{Colour, Label, Paint, Rect};
use field::grant::Grant;
use std::fmt;

// What a slot grants, as a small mark in its tile.
#[derive(Clone, Copy)]
pub enum Mark {
    Data,
    Ploam,
    Ranging,
    Nothing,
}

impl From<Grant> for Mark {
    fn from(grant: Grant) -> Mark {
        match grant {
            Grant::Code(code) if code.value() < 64 => Mark::Data,
            Grant::Code(_) => Mark::Ploam,
            Grant::Ranging => Mark::Ranging,
            Grant::Unassigned | Grant::Idle => Mark::Nothing,
        }
    }
}

impl Mark {
    // In a slot with this left edge.
    pub fn rect(self, left: u64, y: u64) -> Rect {
        let (width, height, paint) = match self {
            Mark::Data => (6, 4, Paint::Filled(Colour::Ink)),
            Mark::Ploam => (18, 4, Paint::Filled(Colour::Ink)),
            Mark::Ranging => (18, 4, Paint::Outlined(Colour::Ink)),
            Mark::Nothing => (2, 2, Paint::Filled(Colour::Ink)),
        };
        Rect {
            x: left.saturating_add((SLOT_WIDTH - width) / 2),
            y,
            width,
            height,
            paint,
        }
    }
}

// The ground of a slot with this left edge.
pub fn ground(left: u64, colour: Colour) -> Rect {
    Rect {
        x: left,
        y: 0,
        width: SLOT_WIDTH - 1,
        height: TILE_HEIGHT,
        paint: Paint::Filled(colour),
    }
}

// A sign where the burst of a slot should stand.
pub fn sign(left: u64, y: u64, paint: Paint) -> Rect {
    Rect {
        x: left.saturating_add(8),
        y,
        width: SLOT_WIDTH - 17,
        height: BURST_HEIGHT,
        paint,
    }
}

// What went wrong in a slot: light that is no cell, or no light although it granted.
fn trouble(sent: &Sent) -> Option<Paint> {
    match (sent.grant, sent.heard) {
        (_, Heard::Broken) => Some(Paint::Filled(Colour::Ink)),
        (Grant::Code(_) | Grant::Ranging, Heard::Dark) => Some(Paint::Outlined(Colour::Ink)),
        _ => None,
    }
}

#[derive(Clone, Copy)]
pub struct Tile(pub Alike);

impl Tile {
    fn colour(&self) -> Colour {
        match self.0.owner {
            Owner::Window(_) => Colour::Shade,
            Owner::Place(place) => Colour::Pale(place),
            Owner::Nobody => Colour::Faint,
        }
    }

    // The place that the slot falls to.
    fn number(&self) -> Option<Label<u8>> {
        match self.0.owner {
            Owner::Window(place) | Owner::Place(place) => Some(Label {
                x: middle(self.0.first),
                y: 12,
                text: place,
            }),
            Owner::Nobody => None,
        }
    }
}

impl fmt::Display for Tile {
    fn fmt<W: fmt::Write>(&self, f: &mut fmt::Formatter<W>) -> fmt::Result {
        let left = left(self.0.first);
        let ground = ground(left, self.colour());
        write!(f, "{ground}")?;
        if let Some(number) = self.number() {
            write!(f, "{number}")?;
        }
        if let Some(sent) = &self.0.sent {
            let mark = Mark::from(sent.grant).rect(left, 17);
            write!(f, "{mark}")?;
            if let Some(paint) = trouble(sent) {
                let sign = sign(left, BURST_TOP, paint);
                write!(f, "{sign}")?;
            }
        }
        Ok(())
    }
}
