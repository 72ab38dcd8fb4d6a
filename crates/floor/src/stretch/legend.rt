// What the signs mean.
use super::layout::{BURST_HEIGHT, MARGIN, SLOT_WIDTH};
use super::tile::{Mark, ground, sign};
use crate::svg::{Colour, Key, Paint, Rect};
use std::fmt;

#[derive(Clone, Copy)]
pub struct Legend {
    pub top: u64,
}

fn burst() -> Rect {
    Rect {
        x: 0,
        y: 5,
        width: SLOT_WIDTH - 1,
        height: BURST_HEIGHT,
        paint: Paint::Filled(Colour::Deep(0)),
    }
}

fn signs() -> [(Rect, &'static str); 9] {
    [
        (ground(0, Colour::Pale(0)), "slot of a place"),
        (ground(0, Colour::Shade), "slot of a window"),
        (Mark::Data.rect(0, 10), "data grant"),
        (Mark::Ploam.rect(0, 10), "PLOAM grant"),
        (Mark::Ranging.rect(0, 10), "ranging grant"),
        (Mark::Nothing.rect(0, 11), "no grant"),
        (burst(), "burst, offset in bits"),
        (sign(0, 5, Paint::Filled(Colour::Ink)), "broken"),
        (
            sign(0, 5, Paint::Outlined(Colour::Ink)),
            "granted, but dark",
        ),
    ]
}

impl fmt::Display for Legend {
    fn fmt<W: fmt::Write>(&self, f: &mut fmt::Formatter<W>) -> fmt::Result {
        for (k, (sign, meaning)) in (0u64..).zip(&signs()) {
            let key = Key {
                x: k.saturating_mul(164).saturating_add(MARGIN),
                y: self.top,
                sign: *sign,
                meaning,
            };
            write!(f, "{key}")?;
        }
        Ok(())
    }
}
