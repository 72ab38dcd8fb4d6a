// A frame's slots as text: to whom each falls, what it grants, and what was heard in it.
use crate::kept::KeptFrame;
use field::grant::Grant;
use report::offset::Offset;
use report::record::{Light, Record};
use rules::settings::Settings;
use rules::slot::Slot;
use std::fmt;

// To whom a slot falls.
#[derive(Clone, Copy, PartialEq, Eq)]
pub enum Owner {
    // kept for a place that is being measured
    Window(u8),
    Place(u8),
    Nobody,
}

impl Owner {
    fn of(slot: Slot, settings: &Settings) -> Owner {
        match slot.owner(settings) {
            Some(place) if slot.in_window() => Owner::Window(place.value()),
            Some(place) => Owner::Place(place.value()),
            None => Owner::Nobody,
        }
    }
}

impl fmt::Display for Owner {
    fn fmt<W: fmt::Write>(&self, f: &mut fmt::Formatter<W>) -> fmt::Result {
        match *self {
            Owner::Window(place) => write!(f, "window of place {place}"),
            Owner::Place(place) => write!(f, "place {place}"),
            Owner::Nobody => f.write_str("nobody"),
        }
    }
}

// What was heard in a slot.
#[derive(Clone, Copy, PartialEq, Eq)]
pub enum Heard {
    Unsettled,
    Dark,
    Broken,
    Ploam(Offset),
    Data(Offset),
}

impl From<&Record> for Heard {
    fn from(record: &Record) -> Heard {
        match record.light {
            Light::Dark => Heard::Dark,
            Light::Broken => Heard::Broken,
            Light::Ploam => Heard::Ploam(record.offset),
            Light::Data => Heard::Data(record.offset),
        }
    }
}

impl fmt::Display for Heard {
    fn fmt<W: fmt::Write>(&self, f: &mut fmt::Formatter<W>) -> fmt::Result {
        match self {
            Heard::Unsettled => f.write_str("no report yet"),
            Heard::Dark => f.write_str("dark"),
            Heard::Broken => f.write_str("broken"),
            Heard::Ploam(offset) => write!(f, "PLOAM cell, offset {offset}"),
            Heard::Data(offset) => write!(f, "data cell, offset {offset}"),
        }
    }
}

#[derive(Clone, Copy)]
struct ShownGrant(Grant);

impl fmt::Display for ShownGrant {
    fn fmt<W: fmt::Write>(&self, f: &mut fmt::Formatter<W>) -> fmt::Result {
        match self.0 {
            Grant::Code(code) => {
                let code = code.value();
                write!(f, "grant {code}")
            }
            Grant::Ranging => f.write_str("ranging grant"),
            Grant::Unassigned => f.write_str("no grant"),
            Grant::Idle => f.write_str("idle"),
        }
    }
}

// What a sent slot granted, and what was heard in it.
#[derive(Clone, Copy, PartialEq, Eq)]
pub struct Sent {
    pub grant: Grant,
    pub heard: Heard,
}

impl fmt::Display for Sent {
    fn fmt<W: fmt::Write>(&self, f: &mut fmt::Formatter<W>) -> fmt::Result {
        let (grant, heard) = (ShownGrant(self.grant), self.heard);
        write!(f, "{grant}, {heard}")
    }
}

// A run of slots that are alike, counted from 1.
#[derive(Clone, Copy)]
pub struct Alike {
    pub first: usize,
    pub last: usize,
    pub owner: Owner,
    // none in a frame that is still to come
    pub sent: Option<Sent>,
}

impl Alike {
    fn goes_on(&self, next: &Alike) -> bool {
        self.owner == next.owner && self.sent == next.sent
    }
}

impl fmt::Display for Alike {
    fn fmt<W: fmt::Write>(&self, f: &mut fmt::Formatter<W>) -> fmt::Result {
        let Alike {
            first,
            last,
            owner,
            sent,
        } = *self;
        if first == last {
            write!(f, "  slot {first}: {owner}")?;
        } else {
            write!(f, "  slots {first}-{last}: {owner}")?;
        }
        match sent {
            None => Ok(()),
            Some(sent) => write!(f, ", {sent}"),
        }
    }
}

// A frame that is kept, or one that is still to come.
#[derive(Clone, Copy)]
pub struct Picture<'a> {
    pub frame: u64,
    pub settings: &'a Settings,
    pub kept: Option<&'a KeptFrame>,
}

impl Picture<'_> {
    fn sent(&self, slot: usize) -> Option<Sent> {
        let kept = self.kept?;
        let k = slot.saturating_sub(1);
        let grant = kept.grants.get(k).copied()?;
        let record = kept.records.as_ref().and_then(|records| records.get(k));
        let heard = record.map_or(Heard::Unsettled, Heard::from);
        Some(Sent { grant, heard })
    }

    pub fn slot(&self, x: usize) -> Alike {
        let slot = Slot {
            frame: self.frame,
            x: x as u64,
        };
        Alike {
            first: x,
            last: x,
            owner: Owner::of(slot, self.settings),
            sent: self.sent(x),
        }
    }
}

impl fmt::Display for Picture<'_> {
    fn fmt<W: fmt::Write>(&self, f: &mut fmt::Formatter<W>) -> fmt::Result {
        let mut run = self.slot(1);
        for x in 2..=53 {
            let next = self.slot(x);
            if run.goes_on(&next) {
                run.last = x;
            } else {
                writeln!(f, "{run}")?;
                run = next;
            }
        }
        write!(f, "{run}")
    }
}
