// A head, and the dockets of its frames that are out.
ghost use Rattle.std.specs.Prelude.{◌≡◌, ◌-◌, true, length};
ghost use Rattle.head.specs.Steps.{fresh, set_up_answer, set_up_head, enter_answer, enter_head, hold_answer, hold_head, release_answer, release_head, look_answer, row_answer, send_answer, send_head, send_buffer};
ghost use Rattle.replay_script.specs.Held.{agree, count, number_sent, held_sent, oldest_answer, oldest_head, held_settled};
ghost use Rattle.replay_script.specs.declared.held.Held.TheVariants.{Nothing};

use crate::held::Held;
use field::number::SerialNumber;
use field::octets::Octets;
use head::head::Head;
use head::head::look::View;
use head::refusal::Refusal;
use rules::row::Row;
use std::mem;

// A report in which nothing was heard.
const DARK: [u8; 954] = [0; 954];

// It is ended by `end`, which spends what is held; it cannot be let go.
pub struct Session {
    head: Head,
    held: Held,
    ghost agree: { agree held head ≡ true },
}

impl Session {
    pub fn new() -> Session
        ensures head { result.head ≡ fresh }
        ensures held { result.held ≡ Nothing }
    {
        Session {
            head: Head::new(),
            held: Held::Nothing,
        }
    }

    pub fn set_up(
        &mut self,
        guard: u64,
        pattern: Octets<3>,
        first: u64,
        calendar: &[u8],
    ) -> Result<(), Refusal>
        ensures answer { result ≡ set_up_answer self.old.head guard first calendar.now }
        ensures head { self.new.head ≡ set_up_head self.old.head guard pattern first calendar.now }
        ensures held { self.new.held ≡ self.old.held }
    {
        self.head.set_up(guard, pattern, first, calendar)
    }

    pub fn enter(&mut self, place: u64, serial: SerialNumber) -> Result<(), Refusal>
        ensures answer { result ≡ enter_answer self.old.head place serial }
        ensures head { self.new.head ≡ enter_head self.old.head place serial }
        ensures held { self.new.held ≡ self.old.held }
    {
        self.head.enter(place, serial)
    }

    pub fn hold(&mut self, place: u64) -> Result<(), Refusal>
        ensures answer { result ≡ hold_answer self.old.head place }
        ensures head { self.new.head ≡ hold_head self.old.head place }
        ensures held { self.new.held ≡ self.old.held }
    {
        self.head.hold(place)
    }

    pub fn release(&mut self, place: u64) -> Result<(), Refusal>
        ensures answer { result ≡ release_answer self.old.head place }
        ensures head { self.new.head ≡ release_head self.old.head place }
        ensures held { self.new.held ≡ self.old.held }
    {
        self.head.release(place)
    }

    pub fn look(&self, place: u64) -> Result<Option<View>, Refusal>
        ensures { result ≡ look_answer self.now.head place }
    {
        self.head.look(place)
    }

    pub fn row(&self, place: u64) -> Result<Row, Refusal>
        ensures { result ≡ row_answer self.now.head place }
    {
        self.head.row(place)
    }

    // Sends a frame, whose docket is kept, and says its number.
    pub fn send(&mut self, buffer: &mut [u8]) -> Result<u64, Refusal>
        ensures answer { result ≡ number_sent (send_answer self.old.head (length buffer.old)) }
        ensures head { self.new.head ≡ send_head self.old.head (length buffer.old) }
        ensures held { self.new.held ≡ held_sent (send_answer self.old.head (length buffer.old)) self.old.held }
        ensures buffer { buffer.new ≡ send_buffer self.old.head buffer.old }
    {
        let held = mem::replace(&mut self.held, Held::Nothing);
        let (held, sent) = held.send(&mut self.head, buffer);
        mem::replace(&mut self.held, held).spent();
        sent
    }

    // Offers the oldest docket.
    pub fn settle(&mut self, report: &[u8]) -> Result<(), Refusal>
        ensures fewer { length report.now ≡ 954 → count self.new.held ≡ count self.old.held - 1 }
        ensures answer { result ≡ oldest_answer self.old.held self.old.head (length report.now) }
        ensures head { self.new.head ≡ oldest_head self.old.held self.old.head report.now }
        ensures held { self.new.held ≡ held_settled self.old.held self.old.head (length report.now) }
    {
        let held = mem::replace(&mut self.held, Held::Nothing);
        let (held, settled) = held.settle(&mut self.head, report);
        mem::replace(&mut self.held, held).spent();
        settled
    }

    // Spends what is held.
    pub fn end(mut self) {
        for _ in 0..4u8 {
            let _ = self.settle(&DARK);
        }
        let Session { head: _, held } = self;
        held.spent();
    }
}
