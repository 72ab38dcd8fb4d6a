// A byte that lies between two bounds, whatever made it.
ghost use Rattle.std.specs.Prelude.{◌≤◌};

pub mod calls;

#[derive(Clone, Copy, PartialEq, Eq)]
pub struct Bounded<const LOW: u8, const HIGH: u8> {
    value: u8,
    ghost low: { LOW ≤ value },
    ghost high: { value ≤ HIGH },
}

// The number by which one ONU is addressed.
pub type PonId = Bounded<0, 63>;

// Guard bits at the start of the upstream overhead.
pub type Guard = Bounded<4, 24>;

// How many of a serial number's lowest bits a mask compares.
pub type MaskLength = Bounded<0, 64>;

// An ordinary grant: every code but ranging, unassigned and idle.
pub type GrantCode = Bounded<0, 252>;

// Which of its three sendings a churning key update is.
pub type KeyCount = Bounded<1, 3>;

// One of two protected lines.
pub type LineNumber = Bounded<0, 1>;

// One of the eight identifiers that are left to vendors.
pub type VendorKind = Bounded<0, 7>;

// The running number of an error report.
pub type Sequence = Bounded<0, 15>;
