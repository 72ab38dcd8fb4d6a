ghost use Rattle.std.specs.Prelude.{◌≡◌, ◌+◌, ◌≤◌};
ghost use Rattle.field.specs.Minislot.{minislot_of};

use super::Minislot;

impl Minislot {
    // That part, or none where it is empty or passes the slot's end.
    pub fn new(offset: u8, length: u8) -> Option<Minislot>
        ensures { result ≡ minislot_of offset length }
    {
        if 1 <= length && u16::from(offset) + u16::from(length) <= 53 {
            Some(Minislot { offset, length })
        } else {
            None
        }
    }

    pub fn offset(self) -> u8
        ensures offset { result ≡ self.offset }
        ensures inside { result ≤ 52 }
    {
        self.offset
    }

    pub fn length(self) -> u8
        ensures length { result ≡ self.length }
        ensures some { 1 ≤ result }
        ensures inside { self.offset + result ≤ 53 }
    {
        self.length
    }
}
