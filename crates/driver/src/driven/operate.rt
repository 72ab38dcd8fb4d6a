// The operator's calls, as the head's.
ghost use Rattle.std.specs.Prelude.{◌≡◌};
ghost use Rattle.head.specs.Steps.{set_up_answer, set_up_head, enter_answer, enter_head, hold_answer, hold_head, release_answer, release_head};
ghost use Rattle.driver.specs.Driver.{with_head, Goes};

use super::Line;
use field::number::SerialNumber;
use field::octets::Octets;
use head::refusal::Refusal;
use plant::plant::Plant;

impl<P: Plant> Line<P> {
    pub fn set_up(
        &mut self,
        guard: u64,
        pattern: Octets<3>,
        first: u64,
        calendar: &[u8],
    ) -> Result<(), Refusal>
        ensures answer { result ≡ set_up_answer self.old.head guard first calendar.now }
        ensures line { self.new ≡ with_head (set_up_head self.old.head guard pattern first calendar.now) self.old }
        ensures goes { Goes P.Plant.means P.Plant.does self.old self.new }
    {
        self.head.set_up(guard, pattern, first, calendar)
    }

    pub fn enter(&mut self, place: u64, serial: SerialNumber) -> Result<(), Refusal>
        ensures answer { result ≡ enter_answer self.old.head place serial }
        ensures line { self.new ≡ with_head (enter_head self.old.head place serial) self.old }
        ensures goes { Goes P.Plant.means P.Plant.does self.old self.new }
    {
        self.head.enter(place, serial)
    }

    pub fn hold(&mut self, place: u64) -> Result<(), Refusal>
        ensures answer { result ≡ hold_answer self.old.head place }
        ensures line { self.new ≡ with_head (hold_head self.old.head place) self.old }
        ensures goes { Goes P.Plant.means P.Plant.does self.old self.new }
    {
        self.head.hold(place)
    }

    pub fn release(&mut self, place: u64) -> Result<(), Refusal>
        ensures answer { result ≡ release_answer self.old.head place }
        ensures line { self.new ≡ with_head (release_head self.old.head place) self.old }
        ensures goes { Goes P.Plant.means P.Plant.does self.old self.new }
    {
        self.head.release(place)
    }
}
