// One ONU, and the state that it is in.
use field::bounded::{GrantCode, PonId};
use field::delay::Delay;
use field::number::{Number, SerialNumber};

// Bits from a grant's slot to its answer at the head, response time included, without any delay.
pub type RoundTrip = Number<1000000>;

#[derive(Clone, Copy, PartialEq, Eq)]
pub enum State {
    // no good signal yet
    O1 = 1,
    // waits for the overhead
    O2 = 2,
    // sets up its optical power
    O3 = 3,
    O4 = 4,
    // waits for a PON_ID and for codes
    O5 = 5,
    O6 = 6,
    // is measured
    O7 = 7,
    // operates
    O8 = 8,
    // was told to stop
    O9 = 9,
    // has lost its signal while it operated
    O10 = 10,
}

#[derive(Clone, Copy)]
pub struct Onu {
    pub serial: SerialNumber,
    pub state: State,
    // its PON_ID
    pub id: Option<PonId>,
    // its code for data cells
    pub grant: Option<GrantCode>,
    // its code for PLOAM cells
    pub ploam: Option<GrantCode>,
    // the pre-assigned delay
    pub preset: Delay,
    // the delay that it answers with
    pub register: Delay,
    pub trip: RoundTrip,
}
