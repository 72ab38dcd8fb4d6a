// The head's table: a record for each of 64 places.
ghost use Rattle.std.specs.Prelude.{◌≡◌, ◌+◌, ◌<◌, length, replicate};
ghost use Rattle.field.specs.Grant.{code_of};
ghost use Rattle.field.specs.Octets.{grants_of};
ghost use Rattle.head.specs.Table.{row_at, begun_rows, place_grant, grant_in, codes_from, message_in, borne, settled_one, settled_rows, records_from};
ghost use Rattle.rules.specs.Row.{blank};

use field::bounded::PonId;
use field::grant::Grant;
use field::grants::Grants;
use field::number::SerialNumber;
use message::downstream::Downstream;
use report::record::Record;
use rules::row::Row;
use rules::settings::Settings;
use rules::slot::{Slot, message_place, starting};

#[derive(Clone, Copy)]
pub struct Table {
    pub rows: [Row; 64],
}

impl Table {
    pub fn empty() -> Table
        ensures { result.rows ≡ replicate 64 blank }
    {
        Table {
            rows: [Row::empty(); 64],
        }
    }

    // The record of a place.
    fn row(&self, place: PonId) -> &Row
        ensures { result.now ≡ row_at self.now.rows place }
    {
        &self.rows[usize::from(place.value())]
    }

    // Whether a filled place has the serial number.
    pub(crate) fn has(&self, serial: SerialNumber) -> bool
        ensures { result ≡ borne serial self.now.rows }
    {
        self.rows.iter().any(|row| row.bears(serial))
    }

    // The round begins that starts with a frame.
    pub(crate) fn begin(&mut self, frame: u64)
        ensures { self.new.rows ≡ begun_rows frame self.old.rows }
    {
        if let Some(place) = starting(frame) {
            self.rows[usize::from(place.value())].begin();
        }
    }

    // What a slot grants.
    fn grant(&self, settings: &Settings, slot: Slot) -> Grant
        ensures { result ≡ grant_in settings.now self.now.rows slot.frame slot.x }
    {
        match slot.owner(settings) {
            Some(place) => slot.grant(place, self.row(place)),
            None => Grant::Unassigned,
        }
    }

    // The code that a slot of a frame grants, counted from 0.
    fn code(&self, settings: &Settings, frame: u64, k: usize) -> u8
        requires { k < 53 }
        ensures { result ≡ code_of (grant_in settings.now self.now.rows frame (k + 1)) }
    {
        let slot = Slot {
            frame,
            x: k as u64 + 1,
        };
        u8::from(self.grant(settings, slot))
    }

    // What the 53 slots of a frame grant.
    pub(crate) fn grants(&self, settings: &Settings, frame: u64) -> Grants<53>
        ensures { result ≡ grants_of 53 (codes_from settings.now self.now.rows frame 1 53) }
    {
        let mut codes = [0; 53];
        for k in 0..53 {
            codes[k] = self.code(settings, frame, k);
        }
        Grants::from_codes(codes)
    }

    // What a cell of a frame says, 0 or 1.
    pub(crate) fn message(&self, settings: &Settings, frame: u64, cell: u64) -> Downstream
        ensures { result ≡ message_in settings.now self.now.rows frame cell }
    {
        let place = message_place(frame, cell);
        self.row(place).says(settings, frame, place)
    }

    // One record of a report; now is the number of the next frame.
    fn settle_one(&mut self, settings: &Settings, now: u64, slot: Slot, heard: &Record)
        ensures { self.new.rows ≡ settled_one settings.now now slot.frame slot.x heard.now self.old.rows }
    {
        if let Some(place) = slot.owner(settings) {
            self.rows[usize::from(place.value())].settle(settings.guard, now, slot, heard);
        }
    }

    // The 53 records of a frame's report, in the order of the slots.
    pub(crate) fn settle(&mut self, settings: &Settings, now: u64, frame: u64, report: &[u8])
        requires { length report.now ≡ 954 }
        ensures { self.new.rows ≡ settled_rows settings.now now frame 1 (records_from report.now 0 53) self.old.rows }
    {
        for k in 0..53usize {
            let slot = Slot {
                frame,
                x: k as u64 + 1,
            };
            let bytes = <&[u8; 18]>::try_from(&report[18 * k..18 * k + 18]).unwrap();
            self.settle_one(settings, now, slot, &Record::from(bytes));
        }
    }
}
