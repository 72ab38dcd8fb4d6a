// A bench ONU, and what the host does to it.
ghost use Rattle.std.specs.Prelude.{◌≡◌, true};
ghost use Rattle.onu.specs.Facts.{sound};

use crate::machine::Machine;

pub mod calls;

#[derive(Clone, Copy)]
pub struct BenchOnu {
    machine: Machine,
    ghost kept: { sound machine.onu ≡ true },
}
