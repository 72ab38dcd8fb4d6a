// How much was read, and what was wrong with the rest.
use cell::fault::CellFault;
use readable::kind::{KINDS, Kind};
use std::fmt;
use std::num::Saturating;

#[derive(Clone, Copy)]
pub struct Tally {
    cells: Saturating<u64>,
    length_faults: Saturating<u64>,
    check_faults: Saturating<u64>,
    message_faults: Saturating<u64>,
    not_hex: Saturating<u64>,
    // how many messages there were of each kind, in the order of the kinds
    messages: [(Kind, Saturating<u64>); 20],
}

impl Tally {
    pub fn new() -> Tally {
        Tally {
            cells: Saturating(0),
            length_faults: Saturating(0),
            check_faults: Saturating(0),
            message_faults: Saturating(0),
            not_hex: Saturating(0),
            messages: KINDS.map(|kind| (kind, Saturating(0))),
        }
    }

    pub fn cell(&mut self, kind: Kind) {
        self.cells += 1;
        if let Some((_, count)) = self.messages.get_mut(kind.place()) {
            *count += 1;
        }
    }

    pub fn fault(&mut self, fault: CellFault) {
        match fault {
            CellFault::Length => self.length_faults += 1,
            CellFault::Check(_) => self.check_faults += 1,
            CellFault::Message(_) => self.message_faults += 1,
        }
    }

    pub fn not_hex(&mut self) {
        self.not_hex += 1;
    }
}

// A line for each count, and one for each kind of message that occurred.
impl fmt::Display for Tally {
    fn fmt<W: fmt::Write>(&self, f: &mut fmt::Formatter<W>) -> fmt::Result {
        let Tally {
            cells,
            length_faults,
            check_faults,
            message_faults,
            not_hex,
            messages,
        } = self;
        writeln!(f, "cells read: {cells}")?;
        writeln!(f, "faults of length: {length_faults}")?;
        writeln!(f, "faults of a check byte: {check_faults}")?;
        writeln!(f, "faults of a message: {message_faults}")?;
        writeln!(f, "lines that are not hex: {not_hex}")?;
        for (kind, count) in messages {
            if count.0 > 0 {
                writeln!(f, "{kind}: {count}")?;
            }
        }
        Ok(())
    }
}
