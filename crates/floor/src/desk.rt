// The line on the desk, with the dockets of the frames that are out.
ghost use Rattle.std.specs.Prelude.{◌≡◌, ◌≤◌, ◌<◌, ◌↔◌, ◌-◌, [], true, length, vec_capacity, IsSome, IfOk, All, option_map};
ghost use Rattle.driver.specs.Driver.{Came, Goes, Same, Sent, Went, with_head};
ghost use Rattle.head.specs.Steps.{set_up_answer, set_up_head, enter_answer, enter_head, hold_answer, hold_head, release_answer, release_head};
ghost use Rattle.line.specs.Run.{New, Distinct};
ghost use Rattle.ports.specs.Lawful.{tree_does};
ghost use Rattle.ports.specs.Tree.{line_means};
ghost use Rattle.std.specs.List.{slice_get};
ghost use Rattle.head.specs.declared.docket.Docket.{Docket};
ghost use Rattle.floor.specs.Dockets.{all_held, newest_answer, with_docket};

use crate::command::Work;
use crate::work::work;
use driver::driven::Line;
use driver::halt::Halt;
use field::number::SerialNumber;
use field::octets::Octets;
use head::docket::{Docket, Refused};
use head::refusal::Refusal;
use ports::tree::Tree;
use std::alloc::{AllocError, Global};

// No docket can be let go: they are settled, the oldest first, or the desk is closed.
pub struct Desk {
    line: Line<Tree>,
    // the oldest first
    dockets: Vec<Docket>,
    ghost held: { all_held line.head dockets.items ≡ true },
    ghost room: { 4 ≤ vec_capacity dockets },
}

impl Desk {
    // A new head before a plant of new ONUs.
    pub fn new(heap: Global, plant: Tree) -> Result<Desk, AllocError>
        ensures comes { IfOk result (λ desk. All New (line_means plant) → Distinct (line_means plant) → Came line_means tree_does desk.line []) }
    {
        let line = Line::new(heap, plant)?;
        let dockets = Vec::with_capacity(heap, 4)?;
        Ok(Desk { line, dockets })
    }

    pub fn line(&self) -> &Line<Tree>
        ensures { result.now ≡ self.now.line }
    {
        &self.line
    }

    pub fn work(&mut self, task: Work)
        ensures goes { Goes line_means tree_does self.old.line self.new.line }
    {
        work(self.line.plant_mut(), task);
    }

    pub fn set_up(
        &mut self,
        guard: u64,
        pattern: Octets<3>,
        first: u64,
        calendar: &[u8],
    ) -> Result<(), Refusal>
        ensures answer { result ≡ set_up_answer self.old.line.head guard first calendar.now }
        ensures line { self.new.line ≡ with_head (set_up_head self.old.line.head guard pattern first calendar.now) self.old.line }
        ensures goes { Goes line_means tree_does self.old.line self.new.line }
    {
        self.line.set_up(guard, pattern, first, calendar)
    }

    pub fn enter(&mut self, place: u64, serial: SerialNumber) -> Result<(), Refusal>
        ensures answer { result ≡ enter_answer self.old.line.head place serial }
        ensures line { self.new.line ≡ with_head (enter_head self.old.line.head place serial) self.old.line }
        ensures goes { Goes line_means tree_does self.old.line self.new.line }
    {
        self.line.enter(place, serial)
    }

    pub fn hold(&mut self, place: u64) -> Result<(), Refusal>
        ensures answer { result ≡ hold_answer self.old.line.head place }
        ensures line { self.new.line ≡ with_head (hold_head self.old.line.head place) self.old.line }
        ensures goes { Goes line_means tree_does self.old.line self.new.line }
    {
        self.line.hold(place)
    }

    pub fn release(&mut self, place: u64) -> Result<(), Refusal>
        ensures answer { result ≡ release_answer self.old.line.head place }
        ensures line { self.new.line ≡ with_head (release_head self.old.line.head place) self.old.line }
        ensures goes { Goes line_means tree_does self.old.line self.new.line }
    {
        self.line.release(place)
    }

    // How many frames are out.
    pub fn out(&self) -> usize
        ensures { result ≡ length self.now.dockets.items }
    {
        self.dockets.len()
    }

    // The oldest frame that is out.
    pub fn oldest(&self) -> Option<u64>
        ensures { result ≡ option_map (λ (docket : Docket). docket.frame) (slice_get self.now.dockets.items 0) }
    {
        self.dockets.first().map(|docket| docket.frame())
    }

    // Sends a frame, and keeps its docket.
    pub fn send(&mut self, buffer: &mut [u8; 96]) -> Result<u64, Halt>
        ensures sent { Sent line_means tree_does (with_docket result) self.old.line self.new.line }
        ensures goes { Went line_means tree_does result self.old.line self.new.line }
    {
        let docket = self.line.send(buffer)?;
        let frame = docket.frame();
        self.dockets.push_reserved(docket);
        Ok(frame)
    }

    // Settles the oldest frame that is out.
    pub fn settle(&mut self, marks: &[u8; 53]) -> Option<u64>
        ensures answer { result ≡ option_map (λ (docket : Docket). docket.frame) (slice_get self.old.dockets.items 0) }
        ensures fewer { length self.new.dockets.items ≡ length self.old.dockets.items - 1 }
        ensures goes { Goes line_means tree_does self.old.line self.new.line }
    {
        if self.dockets.is_empty() {
            return None;
        }
        let docket = self.dockets.remove(0);
        let frame = docket.frame();
        self.line.settle(docket, marks).unwrap();
        Some(frame)
    }

    // Tries the newest docket while an older one is out; refused, it is kept.
    pub fn settle_newest(&mut self, marks: &[u8; 53]) -> Option<Refusal>
        ensures answer { result ≡ newest_answer self.old.dockets.items }
        ensures same { Same self.old.line self.new.line }
        ensures dockets { self.new.dockets.items ≡ self.old.dockets.items }
        ensures goes { Goes line_means tree_does self.old.line self.new.line }
    {
        if self.dockets.len() < 2 {
            return None;
        }
        let docket = self.dockets.pop()?;
        match self.line.settle(docket, marks) {
            Ok(()) => None,
            Err(Refused { docket, why }) => {
                self.dockets.push_reserved(docket);
                Some(why)
            }
        }
    }

    // Settles all that is out.
    pub fn close(mut self) {
        while self.settle(&[0; 53]).is_some() {}
        let Desk { line, dockets } = self;
        drop(line);
        dockets.destroy_empty();
    }
}
