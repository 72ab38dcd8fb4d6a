// How far from its target a burst came.
ghost use Rattle.std.specs.Prelude.{◌≡◌, Some};
ghost use Rattle.report.specs.Offset.{offset_of, offset_bits, offset_between, offset_words};

use std::fmt;

#[derive(Clone, Copy, PartialEq, Eq)]
pub enum Offset {
    // so many bits before the target
    Early(u32),
    // on the target, or so many bits after it
    Late(u32),
}

// Two's complement of 32 bits.
impl From<u32> for Offset {
    ghost from_gives = { λ bits offset. offset ≡ offset_of bits };

    fn from(bits: u32) -> Offset {
        if bits < 2147483648 {
            Offset::Late(bits)
        } else {
            Offset::Early(bits.wrapping_neg())
        }
    }
}

impl From<Offset> for u32 {
    ghost from_gives = { λ offset bits. bits ≡ offset_bits offset };

    fn from(offset: Offset) -> u32 {
        match offset {
            Offset::Early(bits) => bits.wrapping_neg(),
            Offset::Late(bits) => bits,
        }
    }
}

impl Offset {
    // How far a start lies from the time that is due, if 32 bits hold it.
    pub fn between(start: u128, due: u128) -> Option<Offset>
        ensures { result ≡ offset_between start due }
    {
        if start >= due {
            let late = start - due;
            (late < 2147483648).then(|| Offset::Late(late as u32))
        } else {
            let early = due - start;
            (early <= 2147483648).then(|| Offset::Early(early as u32))
        }
    }
}

impl fmt::Display for Offset {
    ghost output = { λ offset. Some (offset_words offset) };

    fn fmt<W: fmt::Write>(&self, f: &mut fmt::Formatter<W>) -> fmt::Result {
        match *self {
            Offset::Early(0) => f.write_str("0"),
            Offset::Early(bits) => write!(f, "-{bits}"),
            Offset::Late(bits) => write!(f, "{bits}"),
        }
    }
}
