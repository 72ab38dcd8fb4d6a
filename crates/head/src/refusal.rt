// Why a call is refused; a refused call has changed nothing.
ghost use Rattle.std.specs.Prelude.{◌≡◌, Some};
ghost use Rattle.head.specs.Refusal.{refusal_number, refusal_words};

use std::error::Error;
use std::fmt;

#[derive(Clone, Copy, Debug, PartialEq, Eq)]
pub enum Refusal {
    // a frame was sent or an ONU entered
    Started = 1,
    // a guard that is not 4, 8, 12 or 16
    Guard = 2,
    // a first frame that is no multiple of 1,024 below 2^48
    FirstFrame = 3,
    // not 52 bytes, or one that is no place and not 255
    Calendar = 4,
    // no place
    Place = 5,
    // a place that is taken
    Taken = 6,
    // a serial number that another place has
    Serial = 7,
    // a place that is empty or held
    NotHeldable = 8,
    // a place that is not held
    NotHeld = 9,
    // a buffer that is not 96 bytes
    Buffer = 10,
    // four dockets are out
    Dockets = 11,
    // no frame number is left
    Frame = 12,
    // not the docket of the oldest frame that is out
    Docket = 13,
    // a report that is not 954 bytes
    Report = 14,
}

impl Refusal {
    pub fn number(self) -> u32
        ensures { result ≡ refusal_number self }
    {
        self as u32
    }
}

impl fmt::Display for Refusal {
    ghost output = { λ why. Some (refusal_words why) };

    fn fmt<W: fmt::Write>(&self, f: &mut fmt::Formatter<W>) -> fmt::Result {
        f.write_str(match *self {
            Refusal::Started => "a frame was sent or an ONU entered",
            Refusal::Guard => "the guard is not 4, 8, 12 or 16",
            Refusal::FirstFrame => "the first frame is no multiple of 1024 below 2^48",
            Refusal::Calendar => "the calendar is not 52 bytes of 0 to 63 or 255",
            Refusal::Place => "no place",
            Refusal::Taken => "the place is taken",
            Refusal::Serial => "another place has the serial number",
            Refusal::NotHeldable => "the place is empty or held",
            Refusal::NotHeld => "the place is not held",
            Refusal::Buffer => "the buffer is not 96 bytes",
            Refusal::Dockets => "four dockets are out",
            Refusal::Frame => "no frame number is left",
            Refusal::Docket => "not the docket of the oldest frame out",
            Refusal::Report => "the report is not 954 bytes",
        })
    }
}

impl Error for Refusal {}
