// A number of up to 64 bits with a greatest value.
ghost use Rattle.std.specs.Prelude.{◌≤◌};

pub mod calls;

#[derive(Clone, Copy, PartialEq, Eq)]
pub struct Number<const HIGH: u64> {
    value: u64,
    ghost high: { value ≤ HIGH },
}

// A serial number: the vendor's four letters, then four bytes of the vendor's own.
pub type SerialNumber = Number<18446744073709551615>;

// A count of 32 bits.
pub type Count = Number<4294967295>;

// A virtual path identifier of twelve bits.
pub type Vpi = Number<4095>;
