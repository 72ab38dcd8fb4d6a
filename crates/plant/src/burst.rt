// What an ONU sends, as it comes to the head's receiver.
ghost use Rattle.std.specs.Prelude.{◌≡◌, MatchBool};
ghost use Rattle.plant.specs.Overlap.{Overlap, Apart, OverlapStands};

use field::bounded::Guard;
use field::number::SerialNumber;
use field::octets::Octets;
use onu::answer::Kind;
use onu::state::RoundTrip;

#[derive(Clone, Copy)]
pub struct Burst {
    // the ONU that sent it
    pub serial: SerialNumber,
    // the slot whose grant it answers
    pub slot: u64,
    // its first bit time
    pub start: u64,
    pub trip: RoundTrip,
    pub kind: Kind,
    pub message: Octets<12>,
}

impl Burst {
    // Whether some bit time lies in both, where each lasts a slot less the guard.
    pub fn overlaps(&self, other: &Burst, guard: Guard) -> bool
        ensures { MatchBool result (Overlap guard.value self.now other.now) (Apart guard.value self.now other.now) }
    {
        let long = 448 - u64::from(guard.value());
        self.start.abs_diff(other.start) < long
    }
}

// Overlap is symmetric, and bursts that start as far apart as one lasts are apart.
pub fn overlap_stands()
    ensures { OverlapStands }
{}
