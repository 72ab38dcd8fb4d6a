// What the host sets before the first frame; no report changes it.
ghost use Rattle.std.specs.Prelude.{◌≡◌};
ghost use Rattle.rules.specs.Settings.{guard_of, calendar_of, first_settings};

use crate::slot::NOBODY;
use field::bounded::Guard;
use field::octets::Octets;

#[derive(Clone, Copy)]
pub struct Settings {
    // bits between two bursts
    pub guard: Guard,
    // the pattern that comes after the guard
    pub pattern: Octets<3>,
    // for grant places 2 to 53 the place that may send there, or 255 for nobody
    pub calendar: [u8; 52],
}

// The guard of so many bits, if a line may have it.
pub fn guard(bits: u64) -> Option<Guard>
    ensures { result ≡ guard_of bits }
{
    match bits {
        4 | 8 | 12 | 16 => Guard::new(bits as u8),
        _ => None,
    }
}

// The calendar of these bytes, if there are 52 and each is a place or nobody.
pub fn calendar(bytes: &[u8]) -> Option<[u8; 52]>
    ensures { result ≡ calendar_of bytes.now }
{
    let calendar = <[u8; 52]>::try_from(bytes).ok()?;
    calendar
        .iter()
        .all(|&byte| byte < 64 || byte == NOBODY)
        .then_some(calendar)
}

impl Settings {
    // Those of a head that was never set up.
    #[tactic(auto, using(crate::proofs::Clamps::four_within))]
    pub fn new() -> Settings
        ensures { result ≡ first_settings }
    {
        Settings {
            guard: Guard::new(4).unwrap(),
            pattern: Octets::new([0; 3]),
            calendar: [NOBODY; 52],
        }
    }
}
