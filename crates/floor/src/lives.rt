// What came over each place, as far as it is kept.
use crate::watch::Happened;
use rules::row::Phase;
use std::alloc::{AllocError, Global};
use std::collections::VecDeque;

// A change of a place, in the frame by which it was told.
#[derive(Clone, Copy)]
pub struct Turn {
    pub frame: u64,
    pub happened: Happened,
}

// So many changes of each place are kept.
pub const TURNS: usize = 256;

#[derive(Drop)]
pub struct Past {
    // the phase before the first change that is kept, and the last frame of those that are not, if any
    phase: Phase,
    lost: Option<u64>,
    turns: VecDeque<Turn>,
}

impl Past {
    fn new(heap: Global) -> Past {
        Past {
            phase: Phase::Empty,
            lost: None,
            turns: VecDeque::new(heap),
        }
    }

    pub fn phase(&self) -> Phase {
        self.phase
    }

    pub fn lost(&self) -> Option<u64> {
        self.lost
    }

    pub fn turns(&self) -> &VecDeque<Turn> {
        &self.turns
    }

    fn note(&mut self, turn: Turn) -> Result<(), AllocError> {
        if self.turns.len() >= TURNS {
            if let Some(oldest) = self.turns.pop_front() {
                self.phase = oldest.happened.phase().unwrap_or(self.phase);
                self.lost = Some(oldest.frame);
            }
        }
        self.turns.push_back(turn)?;
        Ok(())
    }
}

#[derive(Drop)]
pub struct Lives {
    places: Vec<Past>,
}

impl Lives {
    pub fn new(heap: Global) -> Result<Lives, AllocError> {
        let mut places = Vec::with_capacity(heap, 64)?;
        for _ in 0..64 {
            places.push(Past::new(heap))?;
        }
        Ok(Lives { places })
    }

    // Keeps what is drawn of a place: its phases and its delays.
    pub fn note(&mut self, place: usize, turn: Turn) -> Result<(), AllocError> {
        match self.places.get_mut(place) {
            Some(past) if turn.happened.is_drawn() => past.note(turn),
            _ => Ok(()),
        }
    }

    pub fn past(&self, place: usize) -> Option<&Past> {
        self.places.get(place)
    }
}
