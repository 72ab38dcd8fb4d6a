// Why no frame went out.
ghost use Rattle.std.specs.Prelude.{Some};
ghost use Rattle.driver.specs.Halt.{halt_words};

use head::refusal::Refusal;
use std::error::Error;
use std::fmt;

#[derive(Clone, Copy, Debug, PartialEq, Eq)]
pub enum Halt {
    // as the head refuses it
    Refused(Refusal),
    // no memory for the bursts that may come: 54 for each ONU
    Room,
}

impl fmt::Display for Halt {
    ghost output = { λ halt. Some (halt_words halt) };

    fn fmt<W: fmt::Write>(&self, f: &mut fmt::Formatter<W>) -> fmt::Result {
        match self {
            Halt::Refused(why) => why.fmt(f),
            Halt::Room => f.write_str("room for bursts"),
        }
    }
}

impl Error for Halt {}
