ghost use Rattle.std.specs.Prelude.{◌≡◌, ◌≤◌};
ghost use Rattle.field.specs.Bounded.{within};

use super::Bounded;

impl<const LOW: u8, const HIGH: u8> Bounded<LOW, HIGH> {
    // The value, or none where it lies outside the bounds.
    pub fn new(value: u8) -> Option<Bounded<LOW, HIGH>>
        ensures { result ≡ within LOW HIGH value }
    {
        if LOW <= value && value <= HIGH {
            Some(Bounded { value })
        } else {
            None
        }
    }

    pub fn value(self) -> u8
        ensures value { result ≡ self.entry.value }
        ensures low { LOW ≤ result }
        ensures high { result ≤ HIGH }
    {
        self.value
    }
}
