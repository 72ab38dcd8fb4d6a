ghost use Rattle.std.specs.Prelude.{◌≡◌};
ghost use Rattle.payload.specs.Frame.{joined, in_place, frame_of};

use crate::contents::Contents;
use crate::contents::read::read_cell;
use crate::contents::write::put;
use crate::frame::Frame;
use cell::fault::{CellFault, FrameFault, Place};
use field::grants::Grants;

// The grants of both cells, all but the last.
fn join(first: Grants<27>, second: Grants<27>) -> Grants<53>
    ensures { result ≡ joined first second }
{
    let mut codes = [0; 53];
    let front = first.codes();
    let back = second.codes();
    put(&mut codes, 0, 27, &front);
    put(&mut codes, 27, 53, &back[0..26]);
    Grants::from_codes(codes)
}

// One of a frame's cells; a fault says which.
fn read_place(bytes: &[u8], place: Place) -> Result<Contents, (Place, CellFault)>
    ensures { result ≡ in_place place bytes.now }
{
    read_cell(bytes).map_err(|fault| (place, fault))
}

// The contents of a frame, or the first fault; the frame bits and the 54th grant are not looked at.
pub fn read_frame(bytes: &[u8]) -> Result<Frame, FrameFault>
    ensures { result ≡ frame_of bytes.now }
{
    if bytes.len() != 96 {
        return Err(FrameFault::Length);
    }
    let first = read_place(&bytes[0..48], Place::First)?;
    let second = read_place(&bytes[48..96], Place::Second)?;
    Ok(Frame {
        grants: join(first.grants, second.grants),
        first: first.message,
        second: second.message,
    })
}
