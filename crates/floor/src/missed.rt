// Slots that the receiver misses.

// Frames from one on, up to another.
#[derive(Clone, Copy)]
struct Frames {
    from: u64,
    until: u64,
}

#[derive(Clone, Copy)]
pub struct Missed {
    // for each slot
    slots: [Frames; 53],
}

impl Missed {
    pub fn none() -> Missed {
        Missed {
            slots: [Frames { from: 0, until: 0 }; 53],
        }
    }

    // A slot, counted from 1, is missed in so many frames from one on.
    pub fn miss(&mut self, slot: usize, from: u64, frames: u64) {
        let until = from.saturating_add(frames);
        if let Some(missed) = self.slots.get_mut(slot.saturating_sub(1)) {
            *missed = Frames { from, until };
        }
    }

    // The marks of a frame's slots.
    pub fn marks(&self, frame: u64) -> [u8; 53] {
        self.slots
            .map(|slot| u8::from(slot.from <= frame && frame < slot.until))
    }
}
