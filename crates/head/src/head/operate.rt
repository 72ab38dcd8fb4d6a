// The operator's calls.
ghost use Rattle.std.specs.Prelude.{◌≡◌};
ghost use Rattle.head.specs.Steps.{set_up_answer, set_up_head, enter_answer, enter_head, hold_answer, hold_head, release_answer, release_head};

use crate::head::Head;
use crate::refusal::Refusal;
use field::number::SerialNumber;
use field::octets::Octets;
use rules::row::{Phase, Row};
use rules::settings::{Settings, calendar, guard};

// The head counts its frames below this number.
pub(crate) const FRAMES: u64 = 1 << 48;

impl Head {
    // Before anything is sent or entered: guard, pattern, the first frame's number, and who may send where.
    pub fn set_up(
        &mut self,
        guard_bits: u64,
        pattern: Octets<3>,
        first: u64,
        calendar_bytes: &[u8],
    ) -> Result<(), Refusal>
        ensures answer { result ≡ set_up_answer self.old guard_bits first calendar_bytes.now }
        ensures head { self.new ≡ set_up_head self.old guard_bits pattern first calendar_bytes.now }
    {
        if self.started {
            return Err(Refusal::Started);
        }
        let guard = guard(guard_bits).ok_or(Refusal::Guard)?;
        if first % 1024 != 0 || first >= FRAMES {
            return Err(Refusal::FirstFrame);
        }
        let calendar = calendar(calendar_bytes).ok_or(Refusal::Calendar)?;
        self.settings = Settings {
            guard,
            pattern,
            calendar,
        };
        self.frame = first;
        Ok(())
    }

    // A place is given a serial number, for good.
    pub fn enter(&mut self, place: u64, serial: SerialNumber) -> Result<(), Refusal>
        ensures answer { result ≡ enter_answer self.old place serial }
        ensures head { self.new ≡ enter_head self.old place serial }
    {
        if place >= 64 {
            return Err(Refusal::Place);
        }
        if self.table.rows[place as usize].is_filled() {
            return Err(Refusal::Taken);
        }
        if self.table.has(serial) {
            return Err(Refusal::Serial);
        }
        self.table.rows[place as usize] = Row::entered(serial);
        self.started = true;
        Ok(())
    }

    // The ONU of a place is to be silent.
    pub fn hold(&mut self, place: u64) -> Result<(), Refusal>
        ensures answer { result ≡ hold_answer self.old place }
        ensures head { self.new ≡ hold_head self.old place }
    {
        if place >= 64 {
            return Err(Refusal::Place);
        }
        let row = &mut self.table.rows[place as usize];
        if matches!(row.phase, Phase::Empty | Phase::Held) {
            return Err(Refusal::NotHeldable);
        }
        row.hold();
        Ok(())
    }

    // The ONU of a held place may start again.
    pub fn release(&mut self, place: u64) -> Result<(), Refusal>
        ensures answer { result ≡ release_answer self.old place }
        ensures head { self.new ≡ release_head self.old place }
    {
        if place >= 64 {
            return Err(Refusal::Place);
        }
        let row = &mut self.table.rows[place as usize];
        if row.phase != Phase::Held {
            return Err(Refusal::NotHeld);
        }
        row.release();
        Ok(())
    }
}
