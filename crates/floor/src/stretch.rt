// A stretch of frames as an SVG picture: a row for each frame, its 53 slots from left to right. Each slot has a tile, and
// below the tiles stand the bursts where they fell.
use crate::kept::{Kept, KeptFrame};
use crate::picture::Picture;
use crate::svg::{Centred, END, GROUP_END, Label, Paper};
use fallen::Fallen;
use layout::{LEGEND_HEIGHT, MARGIN, ROW_HEIGHT, TOP, WIDTH, middle};
use legend::Legend;
use rules::settings::Settings;
use rules::slot::Slot;
use std::fmt;
use tile::Tile;

mod fallen;
mod layout;
mod legend;
mod tile;

// A frame, and the bursts of all frames as far as they fell into it.
#[derive(Clone, Copy)]
struct Row<'a> {
    // counted from 0
    number: u64,
    frame: &'a KeptFrame,
    settings: &'a Settings,
    kept: &'a Kept,
}

impl Row<'_> {
    // The tile of a slot, counted from 1.
    fn tile(&self, x: usize) -> Tile {
        let picture = Picture {
            frame: self.frame.frame,
            settings: self.settings,
            kept: Some(self.frame),
        };
        Tile(picture.slot(x))
    }

    fn tiles<W: fmt::Write>(&self, f: &mut fmt::Formatter<W>) -> fmt::Result {
        for x in 1..=53 {
            write!(f, "{}", self.tile(x))?;
        }
        Ok(())
    }

    // The bursts that one frame's report tells of.
    fn bars<W: fmt::Write>(&self, f: &mut fmt::Formatter<W>, told: &KeptFrame) -> fmt::Result {
        let Some(records) = &told.records else {
            return Ok(());
        };
        for (x, record) in (1..).zip(records) {
            let slot = Slot {
                frame: told.frame,
                x,
            };
            let fallen = Fallen::of(slot, record, self.settings);
            if let Some(bar) = fallen.and_then(|fallen| fallen.bar(self.frame.frame)) {
                write!(f, "{bar}")?;
            }
        }
        Ok(())
    }

    fn all_bars<W: fmt::Write>(&self, f: &mut fmt::Formatter<W>) -> fmt::Result {
        for told in self.kept.frames() {
            self.bars(f, told)?;
        }
        Ok(())
    }
}

impl fmt::Display for Row<'_> {
    fn fmt<W: fmt::Write>(&self, f: &mut fmt::Formatter<W>) -> fmt::Result {
        let top = Centred(self.number.saturating_mul(ROW_HEIGHT).saturating_add(TOP));
        let number = Label {
            x: MARGIN / 2,
            y: 16,
            text: self.frame.frame,
        };
        write!(f, "{top}{number}")?;
        self.tiles(f)?;
        self.all_bars(f)?;
        f.write_str(GROUP_END)
    }
}

// The numbers of the slots.
#[derive(Clone, Copy)]
struct Numbers;

impl fmt::Display for Numbers {
    fn fmt<W: fmt::Write>(&self, f: &mut fmt::Formatter<W>) -> fmt::Result {
        let top = Centred(0);
        let frame = Label {
            x: MARGIN / 2,
            y: 18,
            text: "frame",
        };
        write!(f, "{top}{frame}")?;
        for x in 1..=53 {
            let number = Label {
                x: middle(x),
                y: 18,
                text: x,
            };
            write!(f, "{number}")?;
        }
        f.write_str(GROUP_END)
    }
}

// The frames that are kept from one to another.
#[derive(Clone, Copy)]
pub struct Stretch<'a> {
    pub from: u64,
    pub to: u64,
    pub settings: &'a Settings,
    pub kept: &'a Kept,
}

impl<'a> Stretch<'a> {
    // Where the legend stands.
    fn bottom(&self) -> u64 {
        let rows = self.to.saturating_sub(self.from).saturating_add(1);
        rows.saturating_mul(ROW_HEIGHT).saturating_add(TOP)
    }

    fn rows<W: fmt::Write>(&self, f: &mut fmt::Formatter<W>) -> fmt::Result {
        for frame in self.kept.frames() {
            if self.from <= frame.frame && frame.frame <= self.to {
                let row = Row {
                    number: frame.frame.saturating_sub(self.from),
                    frame,
                    settings: self.settings,
                    kept: self.kept,
                };
                write!(f, "{row}")?;
            }
        }
        Ok(())
    }
}

impl fmt::Display for Stretch<'_> {
    fn fmt<W: fmt::Write>(&self, f: &mut fmt::Formatter<W>) -> fmt::Result {
        let top = self.bottom();
        let paper = Paper {
            width: WIDTH,
            height: top.saturating_add(LEGEND_HEIGHT),
        };
        let (numbers, legend) = (Numbers, Legend { top });
        write!(f, "{paper}{numbers}")?;
        self.rows(f)?;
        write!(f, "{legend}{END}")
    }
}
