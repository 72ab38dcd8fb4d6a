// What holds of reading and writing together.
ghost use Rattle.std.specs.Prelude.{◌≡◌, Ok};
ghost use Rattle.payload.specs.Export.{rewritten_of};
ghost use Rattle.payload.specs.Laws.{ReadingUndoesWriting, WritingKeeps, Figures};

use crate::contents::Contents;
use crate::contents::read::read_cell;
use crate::contents::write::write_cell;
use crate::frame::Frame;
use crate::frame::read::read_frame;
use crate::frame::write::write_frame;
use cell::fault::{CellFault, FrameFault};

// Reading undoes writing, for every cell's contents.
pub fn reading_undoes_writing_cell(contents: &Contents) -> Result<Contents, CellFault>
    ensures result { result ≡ Ok contents.now }
    ensures law { ReadingUndoesWriting }
{
    let mut bytes = [0; 48];
    write_cell(contents, &mut bytes)?;
    read_cell(&bytes)
}

// Reading undoes writing, for every frame's contents.
pub fn reading_undoes_writing_frame(frame: &Frame) -> Result<Frame, FrameFault>
    ensures result { result ≡ Ok frame.now }
    ensures law { ReadingUndoesWriting }
{
    let mut bytes = [0; 96];
    write_frame(frame, &mut bytes)?;
    read_frame(&bytes)
}

// Writing what was read keeps the frame bit, the grants and the specified bytes of the message.
pub fn writing_keeps_cell(bytes: &[u8]) -> Result<[u8; 48], CellFault>
    ensures result { result ≡ rewritten_of bytes.now }
    ensures law { WritingKeeps }
{
    let contents = read_cell(bytes)?;
    let mut out = [0; 48];
    write_cell(&contents, &mut out)?;
    Ok(out)
}

// The figures that are worked by hand in the docs.
pub fn figures_hold()
    ensures { Figures }
{}
