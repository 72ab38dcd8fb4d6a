// Why a plant does not hear a cell.
ghost use Rattle.std.specs.Prelude.{◌≡◌, Some};
ghost use Rattle.plant.specs.Hearing.{hear_refusal, hear_words};

use std::fmt;

// So many slots the head counts: 53 in each of 2^48 frames.
pub const SLOTS: u64 = 53 << 48;

#[derive(Clone, Copy, PartialEq, Eq)]
pub enum HearFault {
    // not 48 bytes
    Length = 15,
    // less than 27 free entries in the burst list for each ONU
    Room = 18,
    // a first slot past the last that the head can count
    Late = 19,
}

impl HearFault {
    // The number of the refusal.
    pub fn number(self) -> u32
        ensures { result ≡ hear_refusal self }
    {
        self as u32
    }
}

impl fmt::Display for HearFault {
    ghost output = { λ fault. Some (hear_words fault) };

    fn fmt<W: fmt::Write>(&self, f: &mut fmt::Formatter<W>) -> fmt::Result {
        match *self {
            HearFault::Length => f.write_str("length"),
            HearFault::Room => f.write_str("room for bursts"),
            HearFault::Late => f.write_str("first slot"),
        }
    }
}
