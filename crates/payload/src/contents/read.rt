ghost use Rattle.std.specs.Prelude.{◌≡◌};
ghost use Rattle.payload.specs.Cell.{grants_in, cell_of};

use crate::contents::Contents;
use crate::contents::write::put;
use cell::fault::{CellFault, Group};
use cell::reader::Cell;
use field::grants::Grants;

// All 27 grants of a cell.
pub fn grants_of(cell: &Cell) -> Grants<27>
    ensures { result ≡ grants_in cell.now.bytes.now }
{
    let mut codes = [0; 27];
    put(&mut codes, 0, 7, cell.group(Group::First));
    put(&mut codes, 7, 14, cell.group(Group::Second));
    put(&mut codes, 14, 21, cell.group(Group::Third));
    put(&mut codes, 21, 27, cell.group(Group::Fourth));
    Grants::from_codes(codes)
}

// The contents of a cell, or the first fault.
pub fn read_cell(bytes: &[u8]) -> Result<Contents, CellFault>
    ensures { result ≡ cell_of bytes.now }
{
    let cell = Cell::new(bytes)?;
    let message = cell.read()?;
    Ok(Contents {
        first: cell.first(),
        grants: grants_of(&cell),
        message,
    })
}
