// How an ONU answers grants.
ghost use Rattle.std.specs.Prelude.{◌≡◌};
ghost use Rattle.onu.specs.Answer.{kind_number, kind_for, number_message, number_octets, said_by};

use crate::state::{Onu, State};
use field::bounded::GrantCode;
use field::coded::Coded;
use field::grant::Grant;
use field::octets::Octets;
use upstream::message::Upstream;

// What an ONU sends in a slot.
#[derive(Clone, Copy, PartialEq, Eq)]
pub enum Kind {
    Ploam = 2,
    Data = 3,
}

impl Kind {
    // As a report has it.
    pub fn number(self) -> u8
        ensures { result ≡ kind_number self }
    {
        self as u8
    }
}

impl Onu {
    fn answer_code(&self, code: GrantCode) -> Option<Kind>
        ensures { result ≡ kind_for (Grant.Code code) self.now }
    {
        if self.state == State::O8 && self.grant == Some(code) {
            Some(Kind::Data)
        } else if matches!(self.state, State::O7 | State::O8) && self.ploam == Some(code) {
            Some(Kind::Ploam)
        } else {
            None
        }
    }

    // What it sends for a grant, if it answers.
    pub fn answer(&self, grant: Grant) -> Option<Kind>
        ensures { result ≡ kind_for grant self.now }
    {
        match grant {
            Grant::Code(code) => self.answer_code(code),
            Grant::Ranging => matches!(self.state, State::O4 | State::O6).then_some(Kind::Ploam),
            Grant::Unassigned | Grant::Idle => None,
        }
    }

    // Serial_number_ONU with its number.
    fn number_message(&self) -> Upstream
        ensures { result ≡ number_message self.now }
    {
        let source = if self.state == State::O6 {
            None
        } else {
            self.id
        };
        Upstream::SerialNumberOnu {
            source,
            serial: self.serial,
        }
    }

    #[tactic(auto, unfolding(crate::specs::Answer::number_octets))]
    fn number_octets(&self) -> Octets<12>
        ensures { result ≡ number_octets self.now }
    {
        Octets::new(self.number_message().write())
    }

    // The message of its PLOAM cells: its serial number in O6 and O7, elsewhere what it likes.
    pub fn saying(&self, free: Octets<12>) -> Octets<12>
        ensures { result ≡ said_by free self.now }
    {
        match self.state {
            State::O6 | State::O7 => self.number_octets(),
            _ => free,
        }
    }
}
