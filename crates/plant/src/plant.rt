// The interface of all plants; each means a list of at most 64 ONUs.
ghost use Rattle.std.specs.Prelude.{◌≡◌, ◌≤◌, true, List, length, OnOk};
ghost use Rattle.onu.specs.declared.state.Onu.{Onu};
ghost use Rattle.plant.specs.Hearing.{Admitted, Taken, Hearing, HeardBy};
ghost use Rattle.plant.specs.Lawful.{Does, Lawful, all_sound};

use crate::burst::Burst;
use crate::hearing::{HearFault, SLOTS};
use cell::reader::Cell;

pub trait Plant: Sized {
    // the ONUs that it means
    ghost means: { Self → List Onu };

    // what an accepted cell does to this very plant
    ghost does: { Does Self };

    // How many ONUs it means.
    fn count(&self) -> usize
        ensures { result ≡ length (means self.now) };

    // An accepted cell, whose first grant is that of a slot; the answers are appended.
    fn accept(&mut self, cell: &Cell, first: u64, bursts: &mut Vec<Burst>)
        requires { Admitted (length (means self.old)) cell.now.bytes.now first bursts.old }
        ensures { Taken does self.old cell.now.bytes.now first bursts.old self.new bursts.new };

    // One cell as it comes: refused at the first question that is answered no, or accepted.
    fn hear(&mut self, payload: &[u8], first: u64, bursts: &mut Vec<Burst>) -> Result<(), HearFault>
        ensures { Hearing does (length (means self.old)) self.old payload.now first bursts.old self.new bursts.new result }
    {
        let cell = Cell::new(payload).map_err(|_| HearFault::Length)?;
        if bursts.capacity() - bursts.len() < 27 * self.count() {
            return Err(HearFault::Room);
        }
        if first >= SLOTS {
            return Err(HearFault::Late);
        }
        self.accept(&cell, first, bursts);
        Ok(())
    }

    ghost few: { (x : Self) → length (means x) ≤ 64 };

    ghost sound: { (x : Self) → all_sound (means x) ≡ true };

    ghost lawful: { Lawful means does };
}

// Whatever the plant, its ONUs hear an accepted cell lawfully.
pub fn hear_lawfully<P: Plant>(
    plant: &mut P,
    payload: &[u8],
    first: u64,
    bursts: &mut Vec<Burst>,
) -> Result<(), HearFault>
    ensures heard { OnOk result (HeardBy (P.Plant.means plant.old) payload.now first bursts.old.items (P.Plant.means plant.new) bursts.new.items) }
    ensures hears { Hearing P.Plant.does (length (P.Plant.means plant.old)) plant.old payload.now first bursts.old plant.new bursts.new result }
{
    plant.hear(payload, first, bursts)
}
