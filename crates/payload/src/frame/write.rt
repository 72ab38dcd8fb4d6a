ghost use Rattle.std.specs.Prelude.{◌≡◌};
ghost use Rattle.payload.specs.Cell.{written, after};
ghost use Rattle.payload.specs.Frame.{first_cell, second_cell, frame_bytes};

use crate::contents::Contents;
use crate::contents::write::{fill_cell, put};
use crate::frame::Frame;
use cell::fault::FrameFault;
use field::grant::Grant;
use field::grants::Grants;

// The first 27 grants and the first message, with the frame bit.
fn first_cell(frame: &Frame) -> Contents
    ensures { result ≡ first_cell frame.now }
{
    let codes = frame.grants.codes();
    let mut front = [0; 27];
    put(&mut front, 0, 27, &codes[0..27]);
    Contents {
        first: true,
        grants: Grants::from_codes(front),
        message: frame.first,
    }
}

// The other 26 grants, an idle one and the second message.
fn second_cell(frame: &Frame) -> Contents
    ensures { result ≡ second_cell frame.now }
{
    let codes = frame.grants.codes();
    let mut back = [0; 27];
    put(&mut back, 0, 26, &codes[27..53]);
    put(&mut back, 26, 27, &[u8::from(Grant::Idle)]);
    Contents {
        first: false,
        grants: Grants::from_codes(back),
        message: frame.second,
    }
}

// Writes a frame into 96 bytes; a buffer of another length is refused and left as it was.
pub fn write_frame(frame: &Frame, out: &mut [u8]) -> Result<(), FrameFault>
    ensures result { result ≡ written 96 FrameFault.Length out.old }
    ensures bytes { out.new ≡ after 96 (frame_bytes frame.now) out.old }
{
    if out.len() != 96 {
        return Err(FrameFault::Length);
    }
    fill_cell(&first_cell(frame), &mut out[0..48]);
    fill_cell(&second_cell(frame), &mut out[48..96]);
    Ok(())
}
