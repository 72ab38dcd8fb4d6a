ghost use Rattle.std.specs.Prelude.{◌≡◌, ◌+◌, ◌<◌, ◌≤◌, [], ◌∷◌, ◌++◌, length, take};
ghost use Rattle.payload.specs.Cell.{assembled, cell_bytes, written, after};

use crate::contents::Contents;
use cell::fault::CellFault;
use field::check::{check_byte, check_byte_and_zero};
use field::coded::Coded;

// Writes bytes from a place up to an end; what stands before them stays.
pub(crate) fn put(out: &mut [u8], at: usize, end: usize, bytes: &[u8])
    requires { (at + length bytes.now ≡ end) × (end ≤ length out.old) }
    ensures { take end out.new ≡ take at out.old ++ bytes.now }
{
    out[at..end].copy_from_slice(bytes);
}

// Writes a part of a cell and its check byte.
fn put_checked(out: &mut [u8], at: usize, end: usize, bytes: &[u8], check: u8)
    requires { (at + length bytes.now + 1 ≡ end) × (end ≤ length out.old) }
    ensures { take end out.new ≡ take at out.old ++ (bytes.now ++ check ∷ []) }
{
    put(out, at, end - 1, bytes);
    put(out, end - 1, end, &[check]);
}

// The parts of a cell, one after the other.
fn assemble(first: bool, codes: &[u8; 27], message: &[u8; 12], out: &mut [u8])
    requires { length out.old ≡ 48 }
    ensures { out.new ≡ assembled first codes.now message.now }
{
    put(out, 0, 3, &[u8::from(first), 0, 0]);
    put_checked(out, 3, 11, &codes[0..7], check_byte(&codes[0..7]));
    put_checked(out, 11, 19, &codes[7..14], check_byte(&codes[7..14]));
    put_checked(out, 19, 27, &codes[14..21], check_byte(&codes[14..21]));
    put_checked(
        out,
        27,
        34,
        &codes[21..27],
        check_byte_and_zero(&codes[21..27]),
    );
    put_checked(out, 34, 47, message, check_byte(message));
    put(out, 47, 48, &[0]);
}

// Writes a cell over the whole of 48 bytes.
pub(crate) fn fill_cell(contents: &Contents, out: &mut [u8])
    requires { length out.old ≡ 48 }
    ensures { out.new ≡ cell_bytes contents.now }
{
    assemble(
        contents.first,
        &contents.grants.codes(),
        &contents.message.write(),
        out,
    );
}

// Writes a cell into 48 bytes; a buffer of another length is refused and left as it was.
pub fn write_cell(contents: &Contents, out: &mut [u8]) -> Result<(), CellFault>
    ensures result { result ≡ written 48 CellFault.Length out.old }
    ensures bytes { out.new ≡ after 48 (cell_bytes contents.now) out.old }
{
    if out.len() != 48 {
        return Err(CellFault::Length);
    }
    fill_cell(contents, out);
    Ok(())
}
