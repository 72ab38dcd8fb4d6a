// The dockets of the frames that are out, the oldest first.
ghost use Rattle.std.specs.Prelude.{◌≡◌, ◌-◌, ◌+◌, ◌<◌, true, length, OnOk, OnErr};
ghost use Rattle.head.specs.Steps.{send_answer, send_head, send_buffer};
ghost use Rattle.replay_script.specs.Held.{count, with_newest, agree, number_sent, held_sent, oldest_answer, oldest_head, held_settled};

use head::docket::{Docket, Refused};
use head::head::Head;
use head::refusal::Refusal;

// A head has no more than four frames out.
pub enum Held {
    Nothing,
    One(Docket),
    Two(Docket, Docket),
    Three(Docket, Docket, Docket),
    Four(Docket, Docket, Docket, Docket),
}

impl Held {
    // One docket more, the newest.
    fn with(self, docket: Docket) -> Held
        requires { count self < 4 }
        ensures { result ≡ with_newest self docket }
    {
        match self {
            Held::Nothing => Held::One(docket),
            Held::One(a) => Held::Two(a, docket),
            Held::Two(a, b) => Held::Three(a, b, docket),
            Held::Three(a, b, c) => Held::Four(a, b, c, docket),
            Held::Four(..) => unreachable!(),
        }
    }

    // Sends a frame, whose docket is kept, and says its number.
    pub(crate) fn send(self, head: &mut Head, buffer: &mut [u8]) -> (Held, Result<u64, Refusal>)
        requires { agree self head.old ≡ true }
        ensures agree { agree result.0 head.new ≡ true }
        ensures held { result.0 ≡ held_sent (send_answer head.old (length buffer.old)) self }
        ensures answer { result.1 ≡ number_sent (send_answer head.old (length buffer.old)) }
        ensures head { head.new ≡ send_head head.old (length buffer.old) }
        ensures buffer { buffer.new ≡ send_buffer head.old buffer.old }
    {
        match head.send(buffer) {
            Ok(docket) => {
                let frame = docket.frame();
                (self.with(docket), Ok(frame))
            }
            Err(why) => (self, Err(why)),
        }
    }

    // Offers the oldest docket, which stays the oldest if it is refused.
    pub(crate) fn settle(self, head: &mut Head, report: &[u8]) -> (Held, Result<(), Refusal>)
        requires { agree self head.old ≡ true }
        ensures agree { agree result.0 head.new ≡ true }
        ensures fewer { length report.now ≡ 954 → count result.0 ≡ count self - 1 }
        ensures held { result.0 ≡ held_settled self head.old (length report.now) }
        ensures answer { result.1 ≡ oldest_answer self head.old (length report.now) }
        ensures head { head.new ≡ oldest_head self head.old report.now }
    {
        match self {
            Held::Nothing => (Held::Nothing, Err(Refusal::Docket)),
            Held::One(a) => match head.settle(a, report) {
                Ok(()) => (Held::Nothing, Ok(())),
                Err(Refused { docket, why }) => (Held::One(docket), Err(why)),
            },
            Held::Two(a, b) => match head.settle(a, report) {
                Ok(()) => (Held::One(b), Ok(())),
                Err(Refused { docket, why }) => (Held::Two(docket, b), Err(why)),
            },
            Held::Three(a, b, c) => match head.settle(a, report) {
                Ok(()) => (Held::Two(b, c), Ok(())),
                Err(Refused { docket, why }) => (Held::Three(docket, b, c), Err(why)),
            },
            Held::Four(a, b, c, d) => match head.settle(a, report) {
                Ok(()) => (Held::Three(b, c, d), Ok(())),
                Err(Refused { docket, why }) => (Held::Four(docket, b, c, d), Err(why)),
            },
        }
    }

    // Nothing is left of what holds nothing.
    pub(crate) fn spent(self)
        requires { count self ≡ 0 }
    {
        match self {
            Held::Nothing => {}
            Held::One(..) | Held::Two(..) | Held::Three(..) | Held::Four(..) => unreachable!(),
        }
    }
}
