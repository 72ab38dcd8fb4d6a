// Bursts and ONUs as text.
ghost use Rattle.std.specs.Prelude.{◌≡◌, Some};
ghost use Rattle.tree_script.specs.Shown.{moved, move_words};

use keyed::hex::Digits;
use onu::state::{Onu, State};
use plant::burst::Burst;
use report::offset::Offset;
use std::fmt;

// A value, or a word where there is none.
#[derive(Clone, Copy)]
struct Or<T>(Option<T>, &'static str);

impl<T: fmt::Display> fmt::Display for Or<T> {
    fn fmt<W: fmt::Write>(&self, f: &mut fmt::Formatter<W>) -> fmt::Result {
        match &self.0 {
            Some(value) => write!(f, "{value}"),
            None => f.write_str(self.1),
        }
    }
}

// One state left for another.
#[derive(Clone, Copy)]
pub struct Move {
    old: State,
    new: State,
}

impl Move {
    // None where there is no ONU, and where its state stayed.
    pub fn between(old: Option<State>, new: Option<State>) -> Option<Move>
        ensures { result ≡ moved old new }
    {
        let (old, new) = (old?, new?);
        (old != new).then_some(Move { old, new })
    }
}

impl fmt::Display for Move {
    ghost output = { λ m. Some (move_words m) };

    fn fmt<W: fmt::Write>(&self, f: &mut fmt::Formatter<W>) -> fmt::Result {
        write!(f, "O{} -> O{}", self.old.number(), self.new.number())
    }
}

#[derive(Clone, Copy)]
pub struct ShownBurst<'a>(pub &'a Burst);

impl fmt::Display for ShownBurst<'_> {
    fn fmt<W: fmt::Write>(&self, f: &mut fmt::Formatter<W>) -> fmt::Result {
        let Burst {
            serial,
            slot,
            start,
            trip,
            kind,
            message,
        } = *self.0;
        let due = 448 * u128::from(slot) + 35392;
        let offset = Or(Offset::between(u128::from(start), due), "far");
        let (serial, trip, kind) = (serial.value(), trip.value(), kind.number());
        let bytes = message.bytes();
        let message = Digits(&bytes);
        write!(
            f,
            "burst {serial:016x} slot={slot} start={start} offset={offset} "
        )?;
        write!(f, "trip={trip} kind={kind} message={message}")
    }
}

#[derive(Clone, Copy)]
pub struct ShownOnu<'a>(pub &'a Onu);

impl fmt::Display for ShownOnu<'_> {
    fn fmt<W: fmt::Write>(&self, f: &mut fmt::Formatter<W>) -> fmt::Result {
        let Onu {
            serial,
            state,
            id,
            grant,
            ploam,
            preset,
            register,
            trip,
        } = *self.0;
        let (serial, state) = (serial.value(), state.number());
        let id = Or(id.map(|id| id.value()), "none");
        let grant = Or(grant.map(|code| code.value()), "none");
        let ploam = Or(ploam.map(|code| code.value()), "none");
        let (preset, register, trip) = (preset.value(), register.value(), trip.value());
        write!(
            f,
            "{serial:016x} O{state} pon_id={id} data={grant} ploam={ploam} "
        )?;
        write!(f, "pre={preset} register={register} trip={trip}")
    }
}
