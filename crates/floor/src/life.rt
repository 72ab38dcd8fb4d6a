// The life of a place as an SVG picture: its phases along the frames, where its delay was measured, and what ended its
// service.
use crate::lives::{Past, TURNS};
use crate::svg::{Colour, END, Key, Paint, Paper, Rect};
use axis::Axis;
use flag::{Flag, Side, Steps, Words, mast};
use layout::{AXIS_TOP, HEIGHT, MARGIN, PHASE_HEIGHT, TOP, WIDTH};
use rules::row::Phase;
use std::fmt;

pub mod axis;
mod flag;
mod layout;

fn colour(phase: Phase) -> Colour {
    match phase {
        Phase::Empty => Colour::Faint,
        Phase::Held => Colour::Shade,
        Phase::Waiting => Colour::Amber,
        Phase::InService => Colour::Green,
    }
}

// A phase in the legend.
fn sample(phase: Phase) -> Rect {
    Rect {
        x: 0,
        y: 4,
        width: 28,
        height: 16,
        paint: Paint::Filled(colour(phase)),
    }
}

fn signs() -> [(Rect, &'static str); 6] {
    [
        (sample(Phase::Empty), "empty"),
        (sample(Phase::Waiting), "waiting"),
        (sample(Phase::InService), "in service"),
        (sample(Phase::Held), "held"),
        (mast(13, 4, 16, Colour::Ink), "delay measured"),
        (mast(13, 4, 16, Colour::Red), "service ended"),
    ]
}

// The life of one place.
#[derive(Clone, Copy)]
pub struct Life<'a> {
    pub place: usize,
    pub past: &'a Past,
    pub axis: Axis,
}

impl Life<'_> {
    fn stretch(&self, from: u64, until: u64, phase: Phase) -> Rect {
        let x = self.axis.at(from);
        Rect {
            x,
            y: TOP,
            width: self.axis.at(until).saturating_sub(x),
            height: PHASE_HEIGHT,
            paint: Paint::Filled(colour(phase)),
        }
    }

    fn phases<W: fmt::Write>(&self, f: &mut fmt::Formatter<W>) -> fmt::Result {
        let mut from = self.past.lost().unwrap_or(self.axis.start);
        let mut phase = self.past.phase();
        for turn in self.past.turns() {
            if let Some(next) = turn.happened.phase() {
                let stretch = self.stretch(from, turn.frame, phase);
                write!(f, "{stretch}")?;
                from = turn.frame;
                phase = next;
            }
        }
        let last = self.stretch(from, self.axis.now, phase);
        write!(f, "{last}")
    }

    fn flags<W: fmt::Write>(&self, f: &mut fmt::Formatter<W>, side: Side) -> fmt::Result {
        let mut steps = Steps::new();
        for turn in self.past.turns() {
            let words = Words::of(turn.happened).filter(|words| words.side() == side);
            if let Some(words) = words {
                let x = self.axis.at(turn.frame);
                let step = steps.take(x);
                let flag = Flag { x, step, words };
                write!(f, "{flag}")?;
            }
        }
        Ok(())
    }

    fn title<W: fmt::Write>(&self, f: &mut fmt::Formatter<W>) -> fmt::Result {
        let (place, Axis { start, now }) = (self.place, self.axis);
        let y = 20;
        write!(
            f,
            "<text x=\"{MARGIN}\" y=\"{y}\">place {place}, frames {start} to {now}"
        )?;
        if self.past.lost().is_some() {
            write!(f, "; only its last {TURNS} changes are kept")?;
        }
        f.write_str("</text>\n")
    }

    fn legend<W: fmt::Write>(&self, f: &mut fmt::Formatter<W>) -> fmt::Result {
        for (k, (sign, meaning)) in (0u64..).zip(&signs()) {
            let key = Key {
                x: k.saturating_mul(140).saturating_add(MARGIN),
                y: AXIS_TOP + 30,
                sign: *sign,
                meaning,
            };
            write!(f, "{key}")?;
        }
        Ok(())
    }
}

impl fmt::Display for Life<'_> {
    fn fmt<W: fmt::Write>(&self, f: &mut fmt::Formatter<W>) -> fmt::Result {
        let paper = Paper {
            width: WIDTH,
            height: HEIGHT,
        };
        write!(f, "{paper}")?;
        self.title(f)?;
        self.phases(f)?;
        self.flags(f, Side::Above)?;
        self.flags(f, Side::Below)?;
        let axis = self.axis;
        write!(f, "{axis}")?;
        self.legend(f)?;
        f.write_str(END)
    }
}
