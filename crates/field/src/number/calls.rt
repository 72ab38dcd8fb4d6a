ghost use Rattle.std.specs.Prelude.{◌≡◌, ◌≤◌};
ghost use Rattle.field.specs.Number.{up_to, capped, nought};

use super::Number;

impl<const HIGH: u64> Number<HIGH> {
    // The value, or none where it is above the greatest.
    pub fn new(value: u64) -> Option<Number<HIGH>>
        ensures { result ≡ up_to HIGH value }
    {
        if value <= HIGH {
            Some(Number { value })
        } else {
            None
        }
    }

    // The value, or the greatest where it is above that.
    pub fn saturating(value: u64) -> Number<HIGH>
        ensures { result ≡ capped HIGH value }
    {
        Number {
            value: value.min(HIGH),
        }
    }

    pub fn zero() -> Number<HIGH>
        ensures { result ≡ nought HIGH }
    {
        Number { value: 0 }
    }

    pub fn value(self) -> u64
        ensures value { result ≡ self.entry.value }
        ensures high { result ≤ HIGH }
    {
        self.value
    }
}
