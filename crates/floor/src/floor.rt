// A scenario under way: the line on the desk, and what is told of it.
use crate::command::{Call, SetUp, Work};
use crate::desk::Desk;
use crate::kept::{Kept, Records};
use crate::lives::{Lives, Turn};
use crate::missed::Missed;
use crate::spacing::Spacing;
use crate::tally::Tally;
use crate::watch::{Change, ShownView};
use head::head::look::View;
use head::refusal::Refusal;
use ports::tree::Tree;
use report::record::Record;
use rules::settings::{Settings, calendar, guard};
use rules::slot::Slot;
use std::alloc::{AllocError, Global};
use std::{fmt, io};

mod frames;
mod pictures;

// It is closed at the end, with all its frames settled.
pub struct Floor {
    desk: Desk,
    settings: Settings,
    // the number of the first frame, and of the frame that is sent next
    first: u64,
    next: u64,
    // the places as they were last told
    views: [Option<View>; 64],
    kept: Kept,
    lives: Lives,
    spacing: Spacing,
    missed: Missed,
    tally: Tally,
}

// What a call on the head is answered.
#[derive(Clone, Copy)]
enum Answer {
    Done,
    Seen(Option<View>),
    Refused(Refusal),
}

impl fmt::Display for Answer {
    fn fmt<W: fmt::Write>(&self, f: &mut fmt::Formatter<W>) -> fmt::Result {
        match self {
            Answer::Done => f.write_str("done"),
            Answer::Seen(None) => f.write_str("empty"),
            Answer::Seen(Some(view)) => {
                let view = ShownView(view);
                write!(f, "{view}")
            }
            Answer::Refused(why) => {
                let number = why.number();
                write!(f, "refused {number}: {why}")
            }
        }
    }
}

// What ended the window of a place in a frame.
fn window(frame: u64, place: u64, records: &Records) -> Option<&Record> {
    let slot = Slot { frame, x: 53 };
    let here = slot.ends_window() && frame / 16 % 64 == place;
    records.last().filter(|_| here)
}

impl Floor {
    pub fn new(heap: Global, plant: Tree) -> Result<Floor, AllocError> {
        let lives = Lives::new(heap)?;
        Ok(Floor {
            desk: Desk::new(heap, plant)?,
            settings: Settings::new(),
            first: 0,
            next: 0,
            views: [None; 64],
            kept: Kept::new(heap),
            lives,
            spacing: Spacing::new(heap),
            missed: Missed::none(),
            tally: Tally::default(),
        })
    }

    pub fn plant(&self) -> &Tree {
        self.desk.line().plant()
    }

    pub fn work(&mut self, task: Work) {
        self.desk.work(task);
    }

    // What changed at one place.
    fn watch_place(
        &mut self,
        rt: &impl Print,
        frame: u64,
        place: usize,
        heard: Option<&Record>,
    ) -> io::Result<()> {
        let now = self.desk.line().look(place as u64).unwrap_or(None);
        let Some(before) = self.views.get_mut(place) else {
            return Ok(());
        };
        if let Some(after) = &now {
            let change = Change {
                before,
                after,
                heard,
            };
            for happened in change.all().into_iter().flatten() {
                println!(rt; "frame {frame} place {place} {happened}")?;
                self.lives.note(place, Turn { frame, happened })?;
            }
        }
        *before = now;
        Ok(())
    }

    // What a call changed.
    fn watch(&mut self, rt: &impl Print) -> io::Result<()> {
        let frame = self.next;
        for place in 0..64 {
            self.watch_place(rt, frame, place, None)?;
        }
        Ok(())
    }

    // What a frame's report changed.
    fn watch_settled(&mut self, rt: &impl Print, frame: u64, heard: &Records) -> io::Result<()> {
        for place in 0..64 {
            self.watch_place(rt, frame, place, window(frame, place as u64, heard))?;
        }
        Ok(())
    }

    fn refused(&mut self, why: Refusal) -> Answer {
        self.tally.refusals += 1;
        Answer::Refused(why)
    }

    fn set_up(&mut self, with: &SetUp) -> Result<(), Refusal> {
        self.desk
            .set_up(with.guard, with.pattern, with.first, &with.calendar)?;
        self.first = with.first;
        self.next = with.first;
        self.settings = Settings {
            guard: guard(with.guard).unwrap_or(self.settings.guard),
            pattern: with.pattern,
            calendar: calendar(&with.calendar).unwrap_or(self.settings.calendar),
        };
        Ok(())
    }

    fn make(&mut self, call: &Call) -> Result<Answer, Refusal> {
        match call {
            Call::SetUp(with) => self.set_up(with)?,
            Call::Enter { place, serial } => self.desk.enter(*place, *serial)?,
            Call::Hold(place) => self.desk.hold(*place)?,
            Call::Release(place) => self.desk.release(*place)?,
            Call::Look(place) => return Ok(Answer::Seen(self.desk.line().look(*place)?)),
        }
        Ok(Answer::Done)
    }

    fn call(&mut self, rt: &impl Print, call: &Call) -> io::Result<()> {
        let frame = self.next;
        let answer = match self.make(call) {
            Ok(answer) => answer,
            Err(why) => self.refused(why),
        };
        println!(rt; "frame {frame}: {call}: {answer}")?;
        self.watch(rt)
    }
}
