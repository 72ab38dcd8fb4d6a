// What an ONU in service is watched for.
ghost use Rattle.std.specs.Prelude.{◌≡◌};
ghost use Rattle.rules.specs.Alarm.{up, distance, cause_of, counted, counts_after, alarms_reached};
ghost use Rattle.rules.specs.Row.{no_alarms, no_counts};

use crate::job::Job;
use crate::row::{Phase, Row};
use field::bounded::Guard;
use report::offset::Offset;
use report::record::{Light, Record};

#[derive(Clone, Copy, Debug, PartialEq, Eq)]
pub enum Cause {
    // loss of signal
    Los,
    // loss of cell delineation
    Lcd,
    // PLOAM cells missing
    Oaml,
    // cell phase error
    Cpe,
}

#[derive(Clone, Copy, PartialEq, Eq)]
pub struct Alarms {
    pub los: bool,
    pub lcd: bool,
    pub oaml: bool,
    pub cpe: bool,
    // start-up failed
    pub suf: bool,
}

// How many records in succession had no light, a broken cell, or no PLOAM cell where one was granted.
#[derive(Clone, Copy, PartialEq, Eq)]
pub struct Counts {
    pub dark: u8,
    pub broken: u8,
    pub missed: u8,
}

// One more, up to a number at which counting stops.
fn up(most: u8, count: u8) -> u8
    ensures { result ≡ up most count }
{
    if count < most { count + 1 } else { most }
}

// How far an offset is from the target, either way.
pub fn distance(offset: Offset) -> u32
    ensures { result ≡ distance offset }
{
    match offset {
        Offset::Early(bits) | Offset::Late(bits) => bits,
    }
}

impl Alarms {
    pub fn none() -> Alarms
        ensures { result ≡ no_alarms }
    {
        Alarms {
            los: false,
            lcd: false,
            oaml: false,
            cpe: false,
            suf: false,
        }
    }

    // The first of those that end service.
    pub fn cause(self) -> Option<Cause>
        ensures { result ≡ cause_of self }
    {
        if self.los {
            Some(Cause::Los)
        } else if self.lcd {
            Some(Cause::Lcd)
        } else if self.oaml {
            Some(Cause::Oaml)
        } else {
            self.cpe.then_some(Cause::Cpe)
        }
    }
}

impl Counts {
    pub fn none() -> Counts
        ensures { result ≡ no_counts }
    {
        Counts {
            dark: 0,
            broken: 0,
            missed: 0,
        }
    }

    // With one record more, of a PLOAM cell's slot or of another.
    pub fn after(self, ploam: bool, light: Light) -> Counts
        ensures { result ≡ counts_after ploam light self }
    {
        let missed = if light == Light::Ploam {
            0
        } else {
            up(3, self.missed)
        };
        Counts {
            dark: if light == Light::Dark {
                up(8, self.dark)
            } else {
                0
            },
            broken: if light == Light::Broken {
                up(8, self.broken)
            } else {
                0
            },
            missed: if ploam { missed } else { self.missed },
        }
    }
}

// The alarms that these counts and this record reach.
fn reached(guard: Guard, heard: &Record, counts: Counts, suf: bool) -> Alarms
    ensures { result ≡ alarms_reached guard.value heard.now counts suf }
{
    Alarms {
        los: counts.dark >= 8,
        lcd: counts.broken >= 8,
        oaml: counts.missed >= 3,
        cpe: matches!(heard.light, Light::Ploam | Light::Data)
            && distance(heard.offset) > u32::from(guard.value() / 2),
        suf,
    }
}

impl Row {
    // A record that counts, of a PLOAM cell's slot or of another: it may end service.
    pub fn count(&mut self, guard: Guard, ploam: bool, heard: &Record)
        ensures { self.new ≡ counted guard.value ploam heard.now self.old }
    {
        self.counts = self.counts.after(ploam, heard.light);
        let alarms = reached(guard, heard, self.counts, self.alarms.suf);
        if let Some(cause) = alarms.cause() {
            self.phase = Phase::Waiting;
            self.next = Some(Job::Stop);
            self.alarms = alarms;
            self.cause = Some(cause);
        }
    }
}
