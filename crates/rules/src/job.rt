// Jobs: what the head says to one ONU in a round, and how the round ends.
ghost use Rattle.std.specs.Prelude.{◌≡◌};
ghost use Rattle.rules.specs.Job.{given, says, ranges, job_message, measured_told, begun, own_cell, by_measure, measured, confirmed, failed, ranged, served, job_ends};

use crate::alarm::{Alarms, Counts, distance};
use crate::clamp::clamp;
use crate::row::{Phase, Row};
use crate::settings::Settings;
use crate::slot::turn;
use field::bounded::{Guard, PonId};
use field::coded::Coded;
use field::delay::Delay;
use message::downstream::{Access, Address, Allocation, Downstream};
use report::offset::Offset;
use report::record::{Light, Record};
use upstream::message::Upstream;

#[derive(Clone, Copy, Debug, PartialEq, Eq)]
pub enum Job {
    // gives the ONU its PON_ID and codes, and measures its distance
    BringUp,
    // tells it its delay, and sees whether it comes in time
    Tell,
    // sends it back
    Stop,
    // makes it silent
    Hold,
    // lets it start again
    Free,
}

impl Job {
    // Whether the last slot of the place's window is granted.
    pub fn ranges(self) -> bool
        ensures { result ≡ ranges self }
    {
        matches!(self, Job::BringUp | Job::Tell)
    }
}

// A code that is to be answered.
fn given(code: u8) -> Allocation
    ensures { result ≡ given code }
{
    Allocation {
        code: clamp(code),
        active: true,
    }
}

// The delay as it is told; a number that is no delay is not told.
fn told(place: PonId, bits: Option<u32>) -> Downstream
    ensures { result ≡ measured_told place bits }
{
    match bits.and_then(|bits| Delay::new(u64::from(bits))) {
        Some(delay) => Downstream::RangingTime {
            pon_id: place,
            delay,
        },
        None => Downstream::NoMessage,
    }
}

impl Row {
    // One of the messages of a job, counted from 0; nothing after the last.
    fn job_message(&self, settings: &Settings, place: PonId, job: Job, k: u64) -> Downstream
        ensures { result ≡ job_message settings.now place self.now job k }
    {
        let serial = self.serial;
        match (job, k) {
            (Job::BringUp, 0) => Downstream::UpstreamOverhead {
                guard: settings.guard,
                overhead: settings.pattern,
                delay: Delay::zero(),
            },
            (Job::BringUp, 1) => Downstream::AssignPonId {
                pon_id: place,
                serial,
            },
            (Job::BringUp, 2) => Downstream::GrantAllocation {
                pon_id: place,
                grant: given(place.value()),
                ploam: given(64 + place.value()),
            },
            (Job::Tell, 0) => told(place, self.delay),
            (Job::Stop, 0) => Downstream::DeactivatePonId {
                to: Address::One(place),
            },
            (Job::Hold, 0) => Downstream::DisableSerialNumber {
                access: Access::Deny(serial),
            },
            (Job::Free, 0) => Downstream::DisableSerialNumber {
                access: Access::Allow(serial),
            },
            _ => Downstream::NoMessage,
        }
    }

    // What the place says in a frame, if the frame has one of its turns.
    pub fn says(&self, settings: &Settings, frame: u64, place: PonId) -> Downstream
        ensures { result ≡ says settings.now frame place self.now }
    {
        match self.running {
            Some(job) => self.job_message(settings, place, job, turn(frame, place) / 3),
            None => Downstream::NoMessage,
        }
    }

    // Its round starts.
    pub fn begin(&mut self)
        ensures { self.new ≡ begun self.old }
    {
        self.running = self.next.take();
    }

    // Whether a PLOAM cell came with the entered number.
    fn owns(&self, heard: &Record) -> bool
        ensures { result ≡ own_cell heard.now self.now }
    {
        let message = Upstream::read(&heard.message.bytes());
        match (heard.light, message) {
            (Light::Ploam, Ok(Upstream::SerialNumberOnu { serial, .. })) => serial == self.serial,
            _ => false,
        }
    }

    // The delay that a record of bring-up measures.
    fn measured(&self, heard: &Record) -> Option<u32>
        ensures { result ≡ measured heard.now self.now }
    {
        if !self.owns(heard) {
            return None;
        }
        match heard.offset {
            Offset::Early(bits) => (bits <= 32000).then_some(bits),
            Offset::Late(bits) => (bits == 0).then_some(0),
        }
    }

    // The job did not succeed.
    fn fail(&mut self, heard: &Record)
        ensures { self.new ≡ failed heard.now self.old }
    {
        self.running = None;
        self.next = Some(Job::Stop);
        if heard.light != Light::Dark {
            self.alarms.suf |= self.failures >= 1;
            self.failures = self.failures.saturating_add(1);
        }
    }

    // The ONU came in time.
    fn serve(&mut self, now: u64)
        ensures { self.new ≡ served now self.old }
    {
        if self.phase == Phase::Waiting {
            self.phase = Phase::InService;
        }
        self.running = None;
        self.next = None;
        self.alarms = Alarms::none();
        self.cause = None;
        self.counts = Counts::none();
        self.failures = 0;
        self.since = now;
    }

    fn end_bring_up(&mut self, heard: &Record)
        ensures { self.new ≡ by_measure (measured heard.now self.old) heard.now self.old }
    {
        match self.measured(heard) {
            Some(bits) => {
                self.running = None;
                self.next = Some(Job::Tell);
                self.delay = Some(bits);
            }
            None => self.fail(heard),
        }
    }

    fn end_tell(&mut self, guard: Guard, now: u64, heard: &Record)
        ensures { self.new ≡ job_ends (Some Job.Tell) guard.value now heard.now self.old }
    {
        if heard.light == Light::Ploam && distance(heard.offset) <= u32::from(guard.value() / 4) {
            self.serve(now);
        } else {
            self.fail(heard);
        }
    }

    // The record of the last slot of its window ends the running job; now is the number of the next frame.
    pub fn end_job(&mut self, guard: Guard, now: u64, heard: &Record)
        ensures { self.new ≡ job_ends self.old.running guard.value now heard.now self.old }
    {
        match self.running {
            None => {}
            Some(Job::BringUp) => self.end_bring_up(heard),
            Some(Job::Tell) => self.end_tell(guard, now, heard),
            Some(Job::Hold) => self.running = None,
            Some(Job::Stop | Job::Free) => {
                self.running = None;
                self.next = Some(Job::BringUp);
            }
        }
    }
}
