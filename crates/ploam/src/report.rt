// What is said of a line or a cell that cannot be answered otherwise.
use cell::fault::{CellFault, Place};
use readable::show;
use std::alloc::AllocError;
use std::fmt;

// Where a cell stood in the input.
#[derive(Clone, Copy)]
pub struct Source {
    pub line: u64,
    // which of the two cells in its line, unless it was alone there
    pub cell: Option<Place>,
}

impl fmt::Display for Source {
    fn fmt<W: fmt::Write>(&self, f: &mut fmt::Formatter<W>) -> fmt::Result {
        let line = self.line;
        match self.cell {
            None => write!(f, "line {line}"),
            Some(Place::First) => write!(f, "line {line} cell 1"),
            Some(Place::Second) => write!(f, "line {line} cell 2"),
        }
    }
}

// Appends a line that says where a cell is faulty, by which number, and why.
pub fn fault(source: Source, fault: CellFault, out: &mut String) -> Result<(), AllocError> {
    write!(out, "{source}: ")?;
    show::fault::cell(out, fault)?;
    out.push('\n')
}
