// What can happen to an ONU: a message of the head, or something of its own.
use message::downstream::Downstream;

#[derive(Clone, Copy, PartialEq, Eq)]
pub enum OwnEvent {
    SignalLoss,
    SignalReturn,
    // the optical power is set up
    PowerSetUp,
    // ten seconds without a delay
    FirstTimer,
    // a tenth of a second without POPUP
    SecondTimer,
    PowerLoss,
}

#[derive(Clone, Copy)]
pub enum Event {
    Message(Downstream),
    Own(OwnEvent),
}
