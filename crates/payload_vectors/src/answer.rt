// What this implementation says of the bytes of a vector: the readable text, and the bytes written again.
use crate::vector::Kind;
use cell::fault::{CellFault, FrameFault};
use field::check::check_byte;
use field::coded::Coded;
use keyed::hex::push_digits;
use payload::contents::Contents;
use payload::contents::read::read_cell;
use payload::contents::write::write_cell;
use payload::frame::Frame;
use payload::frame::read::read_frame;
use payload::frame::write::write_frame;
use readable::show;
use std::alloc::{AllocError, Global};
use upstream::fault::UpstreamFault;
use upstream::message::Upstream;

#[derive(Drop)]
pub struct Answer {
    pub text: String,
    pub again: String,
}

// What is read out of a vector's bytes, shown, and written again.
trait Stored {
    type Fault;

    fn show(&self, out: &mut String) -> Result<(), AllocError>;

    // Appends the digits of its bytes.
    fn push(&self, out: &mut String) -> Result<(), AllocError>;

    // Appends why there is none.
    fn refuse(out: &mut String, fault: Self::Fault) -> Result<(), AllocError>;
}

impl Stored for Contents {
    type Fault = CellFault;

    fn show(&self, out: &mut String) -> Result<(), AllocError> {
        show::cell(out, self.first, &self.grants.places(), &self.message)
    }

    fn push(&self, out: &mut String) -> Result<(), AllocError> {
        let mut bytes = [0; 48];
        write_cell(self, &mut bytes).unwrap();
        push_digits(out, &bytes)
    }

    fn refuse(out: &mut String, fault: CellFault) -> Result<(), AllocError> {
        show::fault::cell(out, fault)
    }
}

impl Stored for Frame {
    type Fault = FrameFault;

    fn show(&self, out: &mut String) -> Result<(), AllocError> {
        show::frame(out, &self.grants.places(), &self.first, &self.second)
    }

    fn push(&self, out: &mut String) -> Result<(), AllocError> {
        let mut bytes = [0; 96];
        write_frame(self, &mut bytes).unwrap();
        push_digits(out, &bytes)
    }

    fn refuse(out: &mut String, fault: FrameFault) -> Result<(), AllocError> {
        show::fault::frame(out, fault)
    }
}

impl Stored for Upstream {
    type Fault = UpstreamFault;

    fn show(&self, out: &mut String) -> Result<(), AllocError> {
        uplink::message(out, self)
    }

    fn push(&self, out: &mut String) -> Result<(), AllocError> {
        push_digits(out, &self.write())
    }

    fn refuse(out: &mut String, fault: UpstreamFault) -> Result<(), AllocError> {
        out.push_str("fault 17 ")?;
        uplink::fault(out, fault)
    }
}

impl Answer {
    fn empty(heap: Global) -> Answer {
        Answer {
            text: String::new(heap),
            again: String::new(heap),
        }
    }

    // What was read, or the fault and no bytes.
    fn of<T: Stored + Drop>(heap: Global, read: Result<T, T::Fault>) -> Result<Answer, AllocError> {
        let mut answer = Answer::empty(heap);
        match read {
            Ok(stored) => {
                stored.show(&mut answer.text)?;
                stored.push(&mut answer.again)?;
            }
            Err(fault) => {
                T::refuse(&mut answer.text, fault)?;
                answer.again.push('-')?;
            }
        }
        Ok(answer)
    }

    // The check byte alone.
    fn check(heap: Global, bytes: &[u8]) -> Result<Answer, AllocError> {
        let mut answer = Answer::empty(heap);
        push_digits(&mut answer.text, &[check_byte(bytes)])?;
        Ok(answer)
    }

    // A message from an ONU; bytes of another number than twelve have no answer.
    fn upstream(heap: Global, bytes: &[u8]) -> Result<Answer, AllocError> {
        match bytes.try_into() {
            Ok(twelve) => Answer::of(heap, Upstream::read(twelve)),
            Err(_) => Ok(Answer::empty(heap)),
        }
    }

    pub fn new(heap: Global, kind: Kind, bytes: &[u8]) -> Result<Answer, AllocError> {
        match kind {
            Kind::Check => Answer::check(heap, bytes),
            Kind::Cell => Answer::of(heap, read_cell(bytes)),
            Kind::Frame => Answer::of(heap, read_frame(bytes)),
            Kind::Upstream => Answer::upstream(heap, bytes),
        }
    }
}
