// Numbers that are known to fit, as values with bounds.
ghost use Rattle.std.specs.Prelude.{◌≡◌};
ghost use Rattle.rules.specs.Clamp.{clamped};

use field::bounded::Bounded;

// The value, or the greatest where it is above that.
#[tactic(auto, using(crate::proofs::Clamps::clamped_within))]
pub fn clamp<const HIGH: u8>(value: u8) -> Bounded<0, HIGH>
    ensures { result ≡ clamped HIGH value }
{
    Bounded::new(value.min(HIGH)).unwrap()
}
