// Signs above and below the phases: where a delay was measured, and what ended service.
use super::layout::{BOTTOM, STEP, TOP, WORDS_WIDTH};
use crate::svg::{Colour, Label, Paint, Rect};
use crate::watch::{Happened, ShownCause};
use rules::alarm::Cause;
use std::fmt;

// On which side of the phases something stands.
#[derive(Clone, Copy, PartialEq, Eq)]
pub enum Side {
    Above,
    Below,
}

// What stands beside a sign.
#[derive(Clone, Copy)]
pub enum Words {
    Delay(u64),
    Cause(Cause),
}

impl Words {
    // What is drawn of what happened, if anything is.
    pub fn of(happened: Happened) -> Option<Words> {
        match happened {
            Happened::Measured { delay, .. } => Some(Words::Delay(delay)),
            Happened::Ended { cause, .. } => Some(Words::Cause(cause)),
            _ => None,
        }
    }

    pub fn side(&self) -> Side {
        match self {
            Words::Delay(_) => Side::Above,
            Words::Cause(_) => Side::Below,
        }
    }
}

impl fmt::Display for Words {
    fn fmt<W: fmt::Write>(&self, f: &mut fmt::Formatter<W>) -> fmt::Result {
        match *self {
            Words::Delay(delay) => write!(f, "delay {delay}"),
            Words::Cause(cause) => {
                let cause = ShownCause(cause);
                write!(f, "{cause}")
            }
        }
    }
}

// From where on each step has room for words, the innermost first.
#[derive(Clone, Copy)]
pub struct Steps {
    free: [u64; 5],
}

impl Steps {
    pub fn new() -> Steps {
        Steps { free: [0; 5] }
    }

    // Takes the first step that has room, if any does.
    pub fn take(&mut self, x: u64) -> Option<u64> {
        for (step, free) in (0u64..).zip(&mut self.free) {
            if *free <= x {
                *free = x.saturating_add(WORDS_WIDTH);
                return Some(step);
            }
        }
        None
    }
}

// A line from the phases out to words, if there is room for them.
#[derive(Clone, Copy)]
pub struct Flag {
    // along the axis
    pub x: u64,
    pub step: Option<u64>,
    pub words: Words,
}

pub fn mast(x: u64, y: u64, height: u64, colour: Colour) -> Rect {
    Rect {
        x,
        y,
        width: 2,
        height,
        paint: Paint::Filled(colour),
    }
}

impl Flag {
    fn length(&self) -> u64 {
        self.step
            .map_or(6, |step| step.saturating_mul(STEP).saturating_add(12))
    }

    fn mast(&self) -> Rect {
        let height = self.length();
        let (y, colour) = match self.words.side() {
            Side::Above => (TOP.saturating_sub(height), Colour::Ink),
            Side::Below => (BOTTOM, Colour::Red),
        };
        mast(self.x, y, height, colour)
    }

    fn label(&self) -> Option<Label<Words>> {
        self.step?;
        let y = match self.words.side() {
            Side::Above => TOP.saturating_sub(self.length()).saturating_add(8),
            Side::Below => self.length().saturating_add(BOTTOM),
        };
        Some(Label {
            x: self.x.saturating_add(5),
            y,
            text: self.words,
        })
    }
}

impl fmt::Display for Flag {
    fn fmt<W: fmt::Write>(&self, f: &mut fmt::Formatter<W>) -> fmt::Result {
        let mast = self.mast();
        write!(f, "{mast}")?;
        match self.label() {
            Some(label) => write!(f, "{label}"),
            None => Ok(()),
        }
    }
}
