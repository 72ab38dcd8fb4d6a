// A frame out, and its report in.
ghost use Rattle.std.specs.Prelude.{◌≡◌, length};
ghost use Rattle.head.specs.Steps.{send_answer, send_head, send_buffer, is_oldest, settle_answer, settle_head, handed_back};

use crate::docket::{Docket, Refused};
use crate::head::Head;
use crate::head::operate::FRAMES;
use crate::refusal::Refusal;
use payload::frame::Frame;
use payload::frame::write::write_frame;

impl Head {
    // Writes the next frame into 96 bytes.
    pub fn send(&mut self, buffer: &mut [u8]) -> Result<Docket, Refusal>
        ensures answer { result ≡ send_answer self.old (length buffer.old) }
        ensures head { self.new ≡ send_head self.old (length buffer.old) }
        ensures buffer { buffer.new ≡ send_buffer self.old buffer.old }
    {
        if buffer.len() != 96 {
            return Err(Refusal::Buffer);
        }
        if self.out >= 4 {
            return Err(Refusal::Dockets);
        }
        let frame = self.frame;
        if frame >= FRAMES {
            return Err(Refusal::Frame);
        }
        self.table.begin(frame);
        let contents = Frame {
            grants: self.table.grants(&self.settings, frame),
            first: self.table.message(&self.settings, frame, 0),
            second: self.table.message(&self.settings, frame, 1),
        };
        write_frame(&contents, buffer).map_err(|_| Refusal::Buffer)?;
        self.frame = frame + 1;
        self.out += 1;
        self.started = true;
        Ok(Docket { frame })
    }

    // Whether it is the docket of the oldest frame that is out.
    fn is_oldest(&self, docket: &Docket) -> bool
        ensures { result ≡ is_oldest self.now docket.now.frame }
    {
        self.out > 0 && self.frame.checked_sub(self.out) == Some(docket.frame)
    }

    // Reads the report of the oldest frame that is out.
    pub fn settle(&mut self, docket: Docket, report: &[u8]) -> Result<(), Refused>
        ensures answer { result ≡ handed_back docket.frame (settle_answer self.old docket.frame (length report.now)) }
        ensures head { self.new ≡ settle_head self.old docket.frame report.now }
    {
        if !self.is_oldest(&docket) {
            return Err(Refused {
                docket,
                why: Refusal::Docket,
            });
        }
        if report.len() != 954 {
            return Err(Refused {
                docket,
                why: Refusal::Report,
            });
        }
        let Docket { frame } = docket;
        self.table.settle(&self.settings, self.frame, frame, report);
        self.out -= 1;
        Ok(())
    }
}
