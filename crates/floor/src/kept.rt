// Frames as they were sent and heard; the last few are kept.
use field::grant::Grant;
use field::octets::Octets;
use payload::frame::read::read_frame;
use plant::burst::Burst;
use receiver::receive::receive;
use report::offset::Offset;
use report::record::{Light, Record};
use std::alloc::{AllocError, Global};
use std::collections::VecDeque;

// What the receiver made of each slot.
pub type Records = [Record; 53];

// A record of no light.
fn dark() -> Record {
    Record {
        light: Light::Dark,
        parity: 0,
        offset: Offset::Late(0),
        message: Octets::new([0; 12]),
    }
}

// The receiver's report of a frame.
pub fn records(frame: u64, bursts: &[Burst], marks: &[u8; 53]) -> Records {
    let mut report = [0; 954];
    let mut records = [dark(); 53];
    if receive(frame, bursts, marks, &mut report).is_ok() {
        let (chunks, _) = report.as_chunks();
        for (record, bytes) in records.iter_mut().zip(chunks) {
            *record = Record::from(bytes);
        }
    }
    records
}

#[derive(Clone, Copy)]
pub struct KeptFrame {
    pub frame: u64,
    pub grants: [Grant; 53],
    // none before its report
    pub records: Option<Records>,
}

impl KeptFrame {
    // A frame that was sent in 96 bytes.
    fn sent(frame: u64, bytes: &[u8; 96]) -> KeptFrame {
        let grants = read_frame(bytes).map(|frame| frame.grants.places());
        KeptFrame {
            frame,
            grants: grants.unwrap_or([Grant::Idle; 53]),
            records: None,
        }
    }
}

#[derive(Drop)]
pub struct Kept {
    frames: VecDeque<KeptFrame>,
}

// So many frames are kept.
pub const KEPT: usize = 64;

impl Kept {
    pub fn new(heap: Global) -> Kept {
        Kept {
            frames: VecDeque::new(heap),
        }
    }

    pub fn send(&mut self, frame: u64, bytes: &[u8; 96]) -> Result<(), AllocError> {
        if self.frames.len() >= KEPT {
            let _ = self.frames.pop_front();
        }
        self.frames.push_back(KeptFrame::sent(frame, bytes))?;
        Ok(())
    }

    pub fn settle(&mut self, frame: u64, records: Records) {
        for kept in self.frames.iter_mut() {
            if kept.frame == frame {
                kept.records = Some(records);
            }
        }
    }

    // The oldest first.
    pub fn frames(&self) -> &VecDeque<KeptFrame> {
        &self.frames
    }

    pub fn find(&self, frame: u64) -> Option<&KeptFrame> {
        self.frames.iter().find(|kept| kept.frame == frame)
    }
}
