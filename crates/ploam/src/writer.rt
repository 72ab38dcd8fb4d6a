// Readable lines, answered with cells in hex.
ghost use Rattle.std.specs.Prelude.{◌≡◌};
ghost use Rattle.payload.specs.Cell.{cell_bytes};

use crate::lines::Answers;
use cell_line::line::Cell;
use field::grants::Grants;
use keyed::hex;
use payload::contents::Contents;
use payload::contents::write::write_cell;
use std::alloc::AllocError;

#[derive(Clone, Copy)]
pub struct Writer {}

// The 48 bytes of a cell.
fn bytes(contents: &Contents) -> [u8; 48]
    ensures { result ≡ cell_bytes contents.now }
{
    let mut bytes = [0u8; 48];
    write_cell(contents, &mut bytes).unwrap();
    bytes
}

// Appends the hex of a cell.
fn show_hex(cell: &Cell, out: &mut String) -> Result<(), AllocError> {
    let contents = Contents {
        first: cell.first,
        grants: Grants::new(cell.grants),
        message: cell.message,
    };
    hex::push_digits(out, &bytes(&contents))?;
    out.push('\n')
}

impl Answers for Writer {
    fn line(&mut self, number: u64, text: &str, out: &mut String) -> Result<(), AllocError> {
        match text.parse() {
            Ok(cell) => show_hex(&cell, out),
            Err(wanted) => writeln!(out, "line {number}: {wanted}"),
        }
    }

    fn end(&self, _out: &mut String) -> Result<(), AllocError> {
        Ok(())
    }
}
