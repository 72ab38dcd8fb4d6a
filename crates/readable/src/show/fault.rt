// Faults of cells and frames as text.
ghost use Rattle.std.specs.Prelude.{◌≡◌, Some, string_bytes, OnOk};
ghost use Rattle.readable.specs.Fault.{cell_fault_text, frame_fault_text, with_cell_fault, with_frame_fault};

use crate::show::Text;
use cell::fault::{CellFault, FrameFault, Place};
use std::alloc::AllocError;
use std::fmt;

impl fmt::Display for Text<CellFault> {
    ghost output = { λ fault. Some (cell_fault_text fault.0) };

    fn fmt<W: fmt::Write>(&self, f: &mut fmt::Formatter<W>) -> fmt::Result {
        write!(f, "fault {} ", self.0.number())?;
        match self.0 {
            CellFault::Length => f.write_str("length"),
            CellFault::Check(check) => write!(f, "group={}", check.group()),
            CellFault::Message(why) => write!(f, "{}", Text(why)),
        }
    }
}

// Appends `fault 15 length`, `fault 16 group=3` or `fault 17 identifier=17`.
pub fn cell(out: &mut String, fault: CellFault) -> Result<(), AllocError>
    ensures { OnOk result (string_bytes out.new ≡ with_cell_fault (string_bytes out.old) fault) }
{
    write!(out, "{}", Text(fault))
}

impl fmt::Display for Text<FrameFault> {
    ghost output = { λ fault. Some (frame_fault_text fault.0) };

    fn fmt<W: fmt::Write>(&self, f: &mut fmt::Formatter<W>) -> fmt::Result {
        match self.0 {
            FrameFault::Length => write!(f, "{}", Text(CellFault::Length)),
            FrameFault::Cell {
                cell: Place::First,
                fault,
            } => write!(f, "cell=1 {}", Text(fault)),
            FrameFault::Cell {
                cell: Place::Second,
                fault,
            } => write!(f, "cell=2 {}", Text(fault)),
        }
    }
}

// Appends the fault of a frame, with its cell: `cell=2 fault 16 group=3`.
pub fn frame(out: &mut String, fault: FrameFault) -> Result<(), AllocError>
    ensures { OnOk result (string_bytes out.new ≡ with_frame_fault (string_bytes out.old) fault) }
{
    write!(out, "{}", Text(fault))
}
