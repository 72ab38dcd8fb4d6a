// A line whose 64 places and whole calendar are in use.
use field::number::SerialNumber;
use field::octets::Octets;
use replay_script::session::Session;
use rules::row::Phase;
use std::array;

// The frames in which all 64 ONUs come into service, one round after another.
const START: u64 = 3072;

pub struct Full {
    session: Session,
    // the frame that is sent next
    frame: u64,
    buffer: [u8; 96],
    // of everything that was sent
    sum: u64,
}

// The vendor's letters, and the place.
fn serial(place: u64) -> u64 {
    0x4D55_4C4B_0000_0000 + place % 64
}

// What is heard in a slot, counted from 0, of a step of sixteen: a PLOAM cell first, data after it, nothing in a
// window.
fn kind(step: usize, k: usize) -> u8 {
    if step == 15 || step == 14 && k >= 33 {
        0
    } else if k == 0 {
        2
    } else {
        3
    }
}

// The report of a step of sixteen.
fn report(step: usize) -> [u8; 954] {
    let mut report = [0; 954];
    for (k, record) in report.as_chunks_mut::<18>().0.iter_mut().enumerate() {
        record[0] = kind(step, k);
    }
    report
}

// The report of a frame that ends a window: the place answers with its number.
fn answer(place: u64) -> [u8; 954] {
    let mut report = [0; 954];
    report[936] = 2;
    report[942] = (place % 64) as u8;
    report[943] = 3;
    report[945..953].copy_from_slice(&serial(place).to_be_bytes());
    report
}

// A sum with the bytes of one more frame.
fn summed(sum: u64, frame: &[u8; 96]) -> u64 {
    let (words, _) = frame.as_chunks::<8>();
    let mut sum = sum;
    for word in words {
        sum = sum.rotate_left(5) ^ u64::from_be_bytes(*word);
    }
    sum
}

impl Full {
    // A head on which every ONU is in service.
    pub fn new() -> Full {
        let mut session = Session::new();
        let calendar: [u8; 52] = array::from_fn(|x| (x % 64) as u8);
        let _ = session.set_up(8, Octets::new([0xAA, 0x55, 0xAA]), 0, &calendar);
        for place in 0..64 {
            let _ = session.enter(place, SerialNumber::saturating(serial(place)));
        }
        let mut full = Full {
            session,
            frame: 0,
            buffer: [0; 96],
            sum: 0,
        };
        full.start();
        full
    }

    // Sends a frame and settles it with a report.
    fn frame(&mut self, report: &[u8; 954]) {
        let _ = self.session.send(&mut self.buffer);
        let _ = self.session.settle(report);
        self.sum = summed(self.sum, &self.buffer);
        self.frame = self.frame.wrapping_add(1);
    }

    // Brings every ONU into service.
    fn start(&mut self) {
        let reports: [[u8; 954]; 16] = array::from_fn(report);
        for frame in 0..START {
            if frame % 16 == 15 {
                self.frame(&answer(frame / 16));
            } else {
                self.frame(&reports[(frame % 16) as usize]);
            }
        }
    }

    // So many frames more, in which every ONU sends what it may.
    pub fn frames(&mut self, count: u64) {
        let reports: [[u8; 954]; 16] = array::from_fn(report);
        for _ in 0..count {
            self.frame(&reports[(self.frame % 16) as usize]);
        }
    }

    pub fn sum(&self) -> u64 {
        self.sum
    }

    // How many ONUs are in service.
    pub fn serving(&self) -> usize {
        (0..64u64)
            .filter(|place| {
                matches!(self.session.row(*place), Ok(row) if row.phase == Phase::InService)
            })
            .count()
    }

    pub fn end(self) {
        let Full {
            session,
            frame: _,
            buffer: _,
            sum: _,
        } = self;
        session.end();
    }
}
