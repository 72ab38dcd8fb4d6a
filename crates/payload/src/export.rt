// What C code calls, through the crate payload_c.
ghost use Rattle.std.specs.Prelude.{◌≡◌};
ghost use Rattle.payload.specs.Cell.{cell_of};
ghost use Rattle.payload.specs.Export.{answer_of, check_answer, rewrite_of, rewrite_answer, rewritten};

use crate::contents::read::read_cell;
use crate::contents::write::write_cell;
use cell::fault::CellFault;
use cell::reader::Cell;

// 0, or the number of the refusal.
fn answer<T: Drop>(outcome: Result<T, CellFault>) -> u32
    ensures { result ≡ answer_of outcome }
{
    match outcome {
        Ok(_) => 0,
        Err(fault) => fault.number(),
    }
}

// 0 where the bytes are a sound cell, or the number of the refusal.
pub fn payload_check(bytes: &[u8]) -> u32
    ensures { result ≡ check_answer bytes.now }
{
    answer(Cell::new(bytes).and_then(|cell| cell.read()))
}

// Reads a cell and writes its contents again.
fn rewrite(bytes: &[u8], out: &mut [u8]) -> Result<(), CellFault>
    ensures result { result ≡ rewrite_of (cell_of bytes.now) out.old }
    ensures bytes { out.new ≡ rewritten bytes.now out.old }
{
    let contents = read_cell(bytes)?;
    write_cell(&contents, out)
}

// Reads a cell and writes its contents again; 0, or the number of the refusal with nothing written.
pub fn payload_rewrite(bytes: &[u8], out: &mut [u8]) -> u32
    ensures answer { result ≡ rewrite_answer bytes.now out.old }
    ensures bytes { out.new ≡ rewritten bytes.now out.old }
{
    answer(rewrite(bytes, out))
}
