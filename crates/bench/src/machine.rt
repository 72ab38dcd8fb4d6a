// The bench ONU's workings: the ONU, its first cell and its two timers.
ghost use Rattle.std.specs.Prelude.{◌≡◌, ◌+◌, ◌^◌, ◌≤◌, length, option_map, option_to_list};
ghost use Rattle.plant.specs.Heard.{heard_message};
ghost use Rattle.plant.specs.Hearing.{room_in};
ghost use Rattle.plant.specs.Lawful.{own, acted};
ghost use Rattle.bench.specs.Appended.{Appended};
ghost use Rattle.bench.specs.Bench.{quiet, due, woken, counted, ticked, after_cell, answers_of};

use crate::ear::{Ear, message};
use cell::reader::Cell;
use field::bytes::plain;
use field::octets::Octets;
use onu::event::{Event, OwnEvent};
use onu::state::{Onu, State};
use plant::burst::Burst;

#[derive(Clone, Copy)]
pub(crate) struct Machine {
    pub(crate) onu: Onu,
    // no cell has come yet
    pub(crate) fresh: bool,
    // cells since the first timer was started, and since the second
    pub(crate) ranging: u32,
    pub(crate) popup: u32,
}

// No message, from the ONU's PON_ID or from nobody yet.
#[tactic(auto, unfolding(crate::specs::Bench::quiet))]
fn quiet_message(onu: &Onu) -> Octets<12>
    ensures { result ≡ quiet onu.now }
{
    let source = onu.id.map_or(64, |id| id.value());
    Octets::new(plain(source, 0, [0; 4]))
}

// A timer after one cell more, which counts it if it runs.
fn counted(running: bool, cells: u32) -> u32
    ensures { result ≡ counted running cells }
{
    if running { cells.saturating_add(1) } else { 0 }
}

impl Machine {
    // The own event that is due before a cell.
    fn due(&self) -> Option<OwnEvent>
        ensures { due self.now ≡ option_to_list (option_map own result) }
    {
        if self.fresh {
            return Some(OwnEvent::SignalReturn);
        }
        match self.onu.state {
            State::O5 | State::O6 | State::O7 if self.ranging >= 131072 => {
                Some(OwnEvent::FirstTimer)
            }
            State::O10 if self.popup >= 1310 => Some(OwnEvent::SecondTimer),
            State::O3 | State::O4 => Some(OwnEvent::PowerSetUp),
            _ => None,
        }
    }

    #[tactic(auto, unfolding(crate::specs::Bench::woken))]
    fn wake(&mut self)
        ensures onu { self.new.onu ≡ woken self.old }
        ensures ranging { self.new.ranging ≡ self.old.ranging }
        ensures popup { self.new.popup ≡ self.old.popup }
    {
        if let Some(event) = self.due() {
            self.onu.step(&Event::Own(event));
        }
    }

    // The timers count the cell.
    fn tick(&mut self)
        ensures { self.new ≡ ticked self.old.onu self.old.ranging self.old.popup }
    {
        let state = self.onu.state;
        self.fresh = false;
        self.ranging = counted(
            matches!(state, State::O5 | State::O6 | State::O7),
            self.ranging,
        );
        self.popup = counted(state == State::O10, self.popup);
    }

    fn act(&mut self, cell: &Cell)
        ensures { self.new ≡ ticked (acted (heard_message cell.now.bytes.now) self.old.onu) self.old.ranging self.old.popup }
    {
        if let Some(message) = message(cell) {
            self.onu.step(&Event::Message(message));
        }
        self.tick();
    }

    // An accepted cell: the event that is due, the grants in their order, then the message.
    #[tactic(auto, unfolding(crate::specs::Bench::after_cell))]
    pub(crate) fn take_cell(&mut self, cell: &Cell, first: u64, bursts: &mut Vec<Burst>)
        requires cell { length cell.now.bytes.now ≡ 48 }
        requires first { first + 27 ≤ 2 ^ 54 }
        requires room { 27 ≤ room_in bursts.old }
        ensures state { self.new ≡ after_cell self.old cell.now.bytes.now }
        ensures bursts { Appended bursts.old bursts.new (answers_of self.old first cell.now.bytes.now) }
    {
        self.wake();
        let ear = Ear {
            onu: &self.onu,
            free: quiet_message(&self.onu),
        };
        ear.answer_cell(cell, first, bursts);
        self.act(cell);
    }
}
