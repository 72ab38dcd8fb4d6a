// The record of one place, as the head's table has it.
ghost use Rattle.std.specs.Prelude.{◌≡◌};
ghost use Rattle.rules.specs.Row.{blank, entered, held, released, filled, serving, bears};

use crate::alarm::{Alarms, Cause, Counts};
use crate::job::Job;
use field::number::SerialNumber;

#[derive(Clone, Copy, Debug, PartialEq, Eq)]
pub enum Phase {
    // no serial number was entered
    Empty,
    // told to stay silent
    Held,
    // not in service yet, or not any more
    Waiting,
    InService,
}

#[derive(Clone, Copy)]
pub struct Row {
    pub serial: SerialNumber,
    pub phase: Phase,
    // the job of this round, and that of the next
    pub running: Option<Job>,
    pub next: Option<Job>,
    // in bits, once it was measured
    pub delay: Option<u32>,
    pub alarms: Alarms,
    // which alarm ended service
    pub cause: Option<Cause>,
    pub counts: Counts,
    // rounds that failed with light, since it was entered or served last
    pub failures: u64,
    // the first frame that was sent after service began
    pub since: u64,
}

impl Row {
    pub fn empty() -> Row
        ensures { result ≡ blank }
    {
        Row {
            serial: SerialNumber::zero(),
            phase: Phase::Empty,
            running: None,
            next: None,
            delay: None,
            alarms: Alarms::none(),
            cause: None,
            counts: Counts::none(),
            failures: 0,
            since: 0,
        }
    }

    // A place that has just been given a serial number.
    pub fn entered(serial: SerialNumber) -> Row
        ensures { result ≡ entered serial }
    {
        Row {
            serial,
            phase: Phase::Waiting,
            next: Some(Job::BringUp),
            ..Row::empty()
        }
    }

    pub fn is_filled(&self) -> bool
        ensures { result ≡ filled self.now }
    {
        self.phase != Phase::Empty
    }

    // Whether the place has this serial number.
    pub fn bears(&self, serial: SerialNumber) -> bool
        ensures { result ≡ bears serial self.now }
    {
        self.is_filled() && serial == self.serial
    }

    pub fn in_service(&self) -> bool
        ensures { result ≡ serving self.now }
    {
        self.phase == Phase::InService
    }

    pub fn hold(&mut self)
        ensures { self.new ≡ held self.old }
    {
        self.phase = Phase::Held;
        self.running = None;
        self.next = Some(Job::Hold);
    }

    pub fn release(&mut self)
        ensures { self.new ≡ released self.old }
    {
        self.phase = Phase::Waiting;
        self.running = None;
        self.next = Some(Job::Free);
    }
}
