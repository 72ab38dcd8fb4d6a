// What came over a scenario.
use head::head::look::View;
use rules::row::Phase;
use std::fmt;
use std::num::Saturating;

#[derive(Clone, Copy, Default)]
pub struct Tally {
    pub frames: Saturating<u64>,
    pub bursts: Saturating<u64>,
    pub refusals: Saturating<u64>,
}

impl fmt::Display for Tally {
    fn fmt<W: fmt::Write>(&self, f: &mut fmt::Formatter<W>) -> fmt::Result {
        let Tally {
            frames,
            bursts,
            refusals,
        } = *self;
        write!(f, "frames {frames}, bursts {bursts}, refusals {refusals}")
    }
}

// How many places are in each phase.
#[derive(Clone, Copy)]
pub struct Phases<'a>(pub &'a [Option<View>; 64]);

impl Phases<'_> {
    fn count(&self, phase: Phase) -> usize {
        let views = self.0;
        views
            .iter()
            .filter(|view| view.map_or(Phase::Empty, |view| view.phase) == phase)
            .count()
    }
}

impl fmt::Display for Phases<'_> {
    fn fmt<W: fmt::Write>(&self, f: &mut fmt::Formatter<W>) -> fmt::Result {
        let (serving, waiting) = (self.count(Phase::InService), self.count(Phase::Waiting));
        let (held, empty) = (self.count(Phase::Held), self.count(Phase::Empty));
        write!(
            f,
            "in service {serving}, waiting {waiting}, held {held}, empty {empty}"
        )
    }
}
