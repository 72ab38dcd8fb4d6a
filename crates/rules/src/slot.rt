// An upstream slot, and the place that it falls to.
ghost use Rattle.std.specs.Prelude.{◌≡◌};
ghost use Rattle.rules.specs.Schedule.{place_of, window, last, owner, message_place, starting, turn};

use crate::clamp::clamp;
use crate::settings::Settings;
use field::bounded::PonId;

// In a calendar, a slot in which nobody may send.
pub const NOBODY: u8 = 255;

// Grant place x, 1 to 53, of a frame.
#[derive(Clone, Copy, PartialEq, Eq)]
pub struct Slot {
    pub frame: u64,
    pub x: u64,
}

// Places come round after 64.
fn place(n: u64) -> PonId
    ensures { result ≡ place_of n }
{
    clamp((n % 64) as u8)
}

impl Slot {
    // Whether it is kept for a place that is being measured.
    pub fn in_window(self) -> bool
        ensures { result ≡ window self.frame self.x }
    {
        match self.frame % 16 {
            14 => 106u64.saturating_sub(self.x) <= 72,
            15 => 53u64.saturating_sub(self.x) <= 72,
            _ => false,
        }
    }

    // Whether it is the last slot of a window, the one that is granted.
    pub fn ends_window(self) -> bool
        ensures { result ≡ last self.frame self.x }
    {
        self.frame % 16 == 15 && self.x == 53
    }

    // The place that it falls to, if any.
    pub fn owner(self, settings: &Settings) -> Option<PonId>
        ensures { result ≡ owner settings.now self.frame self.x }
    {
        let Slot { frame, x } = self;
        if self.in_window() {
            Some(place(frame / 16))
        } else if x == 1 {
            Some(place(15 * (frame / 16) + frame % 16))
        } else {
            let byte = settings.calendar.get(x.saturating_sub(2) as usize);
            PonId::new(byte.copied().unwrap_or(NOBODY))
        }
    }
}

// The place whose message a cell carries, 0 or 1, of a frame.
#[tactic(auto, using(crate::proofs::Clamps::message_same))]
pub fn message_place(frame: u64, cell: u64) -> PonId
    ensures { result ≡ message_place frame cell }
{
    place((frame % 32) * 2 + cell % 64)
}

// The place whose round starts with a frame, if any.
pub fn starting(frame: u64) -> Option<PonId>
    ensures { result ≡ starting frame }
{
    (frame % 16 == 7).then(|| place(frame / 16 + 63))
}

// How many of its message turns a place has had since its round started.
pub fn turn(frame: u64, place: PonId) -> u64
    ensures { result ≡ turn frame place.value }
{
    (frame % 1024 + 2048 - (16 * u64::from(place.value()) + 23)) % 1024 / 32
}
