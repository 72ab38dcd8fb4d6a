// What an event makes of an ONU.
ghost use Rattle.std.specs.Prelude.{◌≡◌, ◌%◌, ◌^◌};
ghost use Rattle.onu.specs.Onu.{number, inside, meant, matches, lapsed, restarted, readied, code_in, allocated, delayed, masked, disabled, obeyed, happened, stepped, new_onu};

use crate::event::{Event, OwnEvent};
use crate::state::State::{O1, O2, O3, O4, O5, O6, O7, O8, O9, O10};
use crate::state::{Onu, RoundTrip, State};
use field::bounded::{GrantCode, MaskLength};
use field::delay::Delay;
use field::number::SerialNumber;
use message::downstream::{Access, Address, Allocation, Downstream};

impl State {
    // 1 to 10.
    pub fn number(self) -> u8
        ensures { result ≡ number self }
    {
        self as u8
    }
}

// A code that is not active is none.
fn code_in(allocation: Allocation) -> Option<GrantCode>
    ensures { result ≡ code_in allocation }
{
    allocation.active.then_some(allocation.code)
}

// The lowest bits of a serial number.
fn low_bits(serial: SerialNumber, bits: MaskLength) -> u128
    ensures { result ≡ serial.value % 2 ^ bits.value }
{
    u128::from(serial.value()) % (1u128 << bits.value())
}

impl Onu {
    // An ONU that was never switched on.
    pub fn new(serial: SerialNumber, trip: RoundTrip) -> Onu
        ensures { result ≡ new_onu serial trip }
    {
        Onu {
            serial,
            state: O1,
            id: None,
            grant: None,
            ploam: None,
            preset: Delay::zero(),
            register: Delay::zero(),
            trip,
        }
    }

    // Whether it is in one of the states from one number to another.
    pub fn within(&self, first: u8, last: u8) -> bool
        ensures { result ≡ inside first last self.now }
    {
        (first..=last).contains(&self.state.number())
    }

    fn is_meant(&self, to: Address) -> bool
        ensures { result ≡ meant to self.now }
    {
        match to {
            Address::One(id) => self.id == Some(id),
            Address::All => true,
        }
    }

    fn fits(&self, bits: MaskLength, serial: SerialNumber) -> bool
        ensures { result ≡ matches bits serial self.now }
    {
        low_bits(serial, bits) == low_bits(self.serial, bits)
    }

    // To a state without PON_ID and codes.
    fn lapse(&mut self, state: State, preset: Delay, register: Delay)
        ensures { self.new ≡ lapsed state preset register self.old }
    {
        *self = Onu {
            state,
            preset,
            register,
            ..Onu::new(self.serial, self.trip)
        };
    }

    fn restart(&mut self, state: State)
        ensures { self.new ≡ restarted state self.old }
    {
        self.lapse(state, Delay::zero(), self.register);
    }

    fn ready(&mut self, preset: Delay)
        ensures { self.new ≡ readied preset self.old }
    {
        self.lapse(O3, preset, preset);
    }

    fn allocate(&mut self, grant: Allocation, ploam: Allocation)
        ensures { self.new ≡ allocated grant ploam self.old }
    {
        self.state = O7;
        self.grant = code_in(grant);
        self.ploam = code_in(ploam);
    }

    // To a state in which the register holds a delay.
    fn delay(&mut self, state: State, delay: Delay)
        ensures { self.new ≡ delayed state delay self.old }
    {
        self.state = state;
        self.register = delay;
    }

    fn mask(&mut self, bits: MaskLength, serial: SerialNumber)
        ensures { self.new ≡ masked (matches bits serial self.old) self.old }
    {
        match (self.state, self.fits(bits, serial)) {
            (O3, true) => self.state = O4,
            (O4, false) => self.ready(self.preset),
            (O5, true) => self.state = O6,
            (O6, false) => self.state = O5,
            _ => {}
        }
    }

    fn disable(&mut self, access: Access)
        ensures { self.new ≡ disabled access self.old }
    {
        match (access, self.state) {
            (Access::Deny(serial), O2 | O3 | O4 | O5 | O6 | O7 | O8) => {
                if self.serial == serial {
                    self.lapse(O9, self.preset, self.register);
                }
            }
            (Access::AllowAll, O9) => self.restart(O1),
            (Access::Allow(serial), O9) => {
                if self.serial == serial {
                    self.restart(O1);
                }
            }
            _ => {}
        }
    }

    fn obey(&mut self, message: &Downstream)
        ensures { self.new ≡ obeyed message.now self.old }
    {
        match (*message, self.state) {
            (Downstream::UpstreamOverhead { delay, .. }, O2) => self.ready(delay),
            (Downstream::SerialNumberMask { bits, serial }, _) => self.mask(bits, serial),
            (Downstream::AssignPonId { pon_id, serial }, O5 | O6) => {
                if self.serial == serial {
                    self.id = Some(pon_id);
                }
            }
            (
                Downstream::GrantAllocation {
                    pon_id,
                    grant,
                    ploam,
                },
                O5 | O6,
            ) => {
                if self.id == Some(pon_id) {
                    self.allocate(grant, ploam);
                }
            }
            (Downstream::Popup, O10) => self.delay(O7, self.preset),
            (Downstream::RangingTime { pon_id, delay }, O7 | O8) => {
                if self.id == Some(pon_id) {
                    self.delay(O8, delay);
                }
            }
            (Downstream::DeactivatePonId { to }, O3 | O4 | O5 | O6 | O7 | O8) => {
                if self.is_meant(to) {
                    self.restart(O2);
                }
            }
            (Downstream::DisableSerialNumber { access }, _) => self.disable(access),
            _ => {}
        }
    }

    fn happen(&mut self, event: OwnEvent)
        ensures { self.new ≡ happened event self.old }
    {
        match (event, self.state) {
            (OwnEvent::PowerSetUp, O3 | O4) => self.state = O5,
            (OwnEvent::SecondTimer, O10) => self.restart(O1),
            (OwnEvent::FirstTimer, O5 | O6 | O7) => self.ready(self.preset),
            (OwnEvent::SignalLoss, O2 | O3 | O4 | O5 | O6 | O7) => self.restart(O1),
            (OwnEvent::SignalLoss, O8) => self.state = O10,
            (OwnEvent::SignalReturn, O1) => self.restart(O2),
            (OwnEvent::PowerLoss, O9) => {}
            (OwnEvent::PowerLoss, _) => self.lapse(O1, Delay::zero(), Delay::zero()),
            _ => {}
        }
    }

    // One event, by the state table.
    pub fn step(&mut self, event: &Event)
        ensures { self.new ≡ stepped event.now self.old }
    {
        match *event {
            Event::Message(message) => self.obey(&message),
            Event::Own(own) => self.happen(own),
        }
    }
}
