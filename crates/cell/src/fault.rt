// Why bytes are no cell or no frame; nothing of a fault is lost on its way up.
ghost use Rattle.std.specs.Prelude.{◌≡◌, Some};
ghost use Rattle.cell.specs.Fault.{group_number, cell_refusal, frame_refusal, check_words, cell_words, frame_words};
ghost use Rattle.cell.specs.declared.fault.CellFault.TheVariants.{Check as CheckOf, Message as MessageOf};
ghost use Rattle.cell.specs.declared.fault.FrameFault.TheVariants.{Cell as CellOf};

use message::fault::MessageFault;
use std::fmt;

// The grants of a cell stand in four groups.
#[derive(Clone, Copy, PartialEq, Eq)]
pub enum Group {
    First = 1,
    Second,
    Third,
    Fourth,
}

// A part of a cell whose check byte does not fit.
#[derive(Clone, Copy, PartialEq, Eq)]
pub enum CheckFault {
    Grants(Group),
    Message,
}

#[derive(Clone, Copy, PartialEq, Eq)]
pub enum CellFault {
    // not 48 bytes
    Length,
    Check(CheckFault),
    Message(MessageFault),
}

// One of a frame's two cells.
#[derive(Clone, Copy, PartialEq, Eq)]
pub enum Place {
    First,
    Second,
}

#[derive(Clone, Copy, PartialEq, Eq)]
pub enum FrameFault {
    // not 96 bytes
    Length,
    Cell { cell: Place, fault: CellFault },
}

impl From<CheckFault> for CellFault {
    ghost from_gives = { λ e r. r ≡ CheckOf e };

    fn from(e: CheckFault) -> CellFault {
        CellFault::Check(e)
    }
}

impl From<MessageFault> for CellFault {
    ghost from_gives = { λ e r. r ≡ MessageOf e };

    fn from(e: MessageFault) -> CellFault {
        CellFault::Message(e)
    }
}

impl From<(Place, CellFault)> for FrameFault {
    ghost from_gives = { λ e r. r ≡ CellOf e.0 e.1 };

    fn from(e: (Place, CellFault)) -> FrameFault {
        let (cell, fault) = e;
        FrameFault::Cell { cell, fault }
    }
}

impl CheckFault {
    // The groups of grants are 1 to 4, the message is 5.
    pub fn group(self) -> u8
        ensures { result ≡ group_number self }
    {
        match self {
            CheckFault::Grants(group) => group as u8,
            CheckFault::Message => 5,
        }
    }
}

impl CellFault {
    // The number of the refusal.
    pub fn number(self) -> u32
        ensures { result ≡ cell_refusal self }
    {
        match self {
            CellFault::Length => 15,
            CellFault::Check(_) => 16,
            CellFault::Message(_) => 17,
        }
    }
}

impl FrameFault {
    pub fn number(self) -> u32
        ensures { result ≡ frame_refusal self }
    {
        match self {
            FrameFault::Length => 15,
            FrameFault::Cell { cell: _, fault } => fault.number(),
        }
    }
}

impl fmt::Display for CheckFault {
    ghost output = { λ fault. Some (check_words fault) };

    fn fmt<W: fmt::Write>(&self, f: &mut fmt::Formatter<W>) -> fmt::Result {
        let group = self.group();
        write!(f, "check byte of group {group}")
    }
}

impl fmt::Display for CellFault {
    ghost output = { λ fault. Some (cell_words fault) };

    fn fmt<W: fmt::Write>(&self, f: &mut fmt::Formatter<W>) -> fmt::Result {
        match *self {
            CellFault::Length => f.write_str("length"),
            CellFault::Check(fault) => write!(f, "{fault}"),
            CellFault::Message(fault) => write!(f, "message: {fault}"),
        }
    }
}

impl fmt::Display for FrameFault {
    ghost output = { λ fault. Some (frame_words fault) };

    fn fmt<W: fmt::Write>(&self, f: &mut fmt::Formatter<W>) -> fmt::Result {
        match *self {
            FrameFault::Length => f.write_str("length"),
            FrameFault::Cell {
                cell: Place::First,
                fault,
            } => write!(f, "first cell: {fault}"),
            FrameFault::Cell {
                cell: Place::Second,
                fault,
            } => write!(f, "second cell: {fault}"),
        }
    }
}
