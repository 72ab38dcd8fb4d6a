// Cells in hex, answered with readable lines.
use crate::lines::Answers;
use crate::report;
use crate::report::Source;
use crate::tally::Tally;
use cell::fault::Place;
use keyed::hex::{self, NotHex};
use payload::contents::Contents;
use payload::contents::read::read_cell;
use readable::kind::Kind;
use readable::show;
use std::alloc::{AllocError, Global};

#[derive(Drop)]
pub struct Reader {
    heap: Global,
    tally: Tally,
}

// Appends the readable line of a cell.
fn show_cell(contents: &Contents, out: &mut String) -> Result<(), AllocError> {
    let grants = contents.grants.places();
    show::cell(out, contents.first, &grants, &contents.message)?;
    out.push('\n')
}

impl Reader {
    pub fn new(heap: Global) -> Reader {
        Reader {
            heap,
            tally: Tally::new(),
        }
    }

    fn cell(&mut self, source: Source, bytes: &[u8], out: &mut String) -> Result<(), AllocError> {
        match read_cell(bytes) {
            Ok(contents) => {
                self.tally.cell(Kind::from(&contents.message));
                show_cell(&contents, out)
            }
            Err(fault) => {
                self.tally.fault(fault);
                report::fault(source, fault, out)
            }
        }
    }

    // One cell, or the two of a frame.
    fn bytes(&mut self, line: u64, bytes: &[u8], out: &mut String) -> Result<(), AllocError> {
        if bytes.len() != 96 {
            return self.cell(Source { line, cell: None }, bytes, out);
        }
        let cells = [Some(Place::First), Some(Place::Second)];
        for (cell, half) in cells.into_iter().zip(bytes.chunks(48)) {
            self.cell(Source { line, cell }, half, out)?;
        }
        Ok(())
    }
}

impl Answers for Reader {
    fn line(&mut self, number: u64, text: &str, out: &mut String) -> Result<(), AllocError> {
        match hex::bytes(self.heap, text) {
            Ok(bytes) => self.bytes(number, bytes.as_slice(), out),
            Err(NotHex::Digits) => {
                self.tally.not_hex();
                writeln!(out, "line {number}: not hex")
            }
            Err(NotHex::Memory) => Err(AllocError),
        }
    }

    fn end(&self, out: &mut String) -> Result<(), AllocError> {
        write!(out, "{}", self.tally)
    }
}
