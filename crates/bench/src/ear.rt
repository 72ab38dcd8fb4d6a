// What one ONU hears of a cell, and its answers.
ghost use Rattle.std.specs.Prelude.{◌≡◌, ◌+◌, ◌^◌, ◌<◌, ◌≤◌, length};
ghost use Rattle.cell.specs.Reader.{size_of};
ghost use Rattle.field.specs.Grant.{grant_of};
ghost use Rattle.onu.specs.Answer.{kind_for};
ghost use Rattle.plant.specs.Heard.{heard_group, heard_grants, heard_message};
ghost use Rattle.plant.specs.Hearing.{room_in};
ghost use Rattle.plant.specs.Lawful.{answer_to};
ghost use Rattle.bench.specs.Appended.{Appended};
ghost use Rattle.bench.specs.Ear.{replies};

use cell::fault::Group;
use cell::reader::Cell;
use field::grant::Grant;
use field::octets::Octets;
use message::downstream::Downstream;
use onu::state::Onu;
use plant::burst::Burst;

// The message, if it is not lost.
#[tactic(auto, unfolding(plant::specs::Heard::heard_message))]
pub(crate) fn message(cell: &Cell) -> Option<Downstream>
    ensures { result ≡ heard_message cell.now.bytes.now }
{
    cell.check_message().ok()?;
    cell.message().ok()
}

// An ONU at one cell, which it does not act on before all grants are answered.
#[derive(Clone, Copy)]
pub(crate) struct Ear<'a> {
    pub(crate) onu: &'a Onu,
    // what its PLOAM cells say where the message is free
    pub(crate) free: Octets<12>,
}

impl Ear<'_> {
    fn answer_grant(&self, grant: u8, slot: u64, bursts: &mut Vec<Burst>)
        requires slot { slot < 2 ^ 54 }
        requires room { 1 ≤ room_in bursts.old }
        ensures { Appended bursts.old bursts.new (answer_to (kind_for (grant_of grant) self.now.onu.now) self.now.free self.now.onu.now slot) }
    {
        let onu = self.onu;
        if let Some(kind) = onu.answer(Grant::from(grant)) {
            bursts.push_reserved(Burst {
                serial: onu.serial,
                slot,
                start: 448 * slot + onu.trip.value() + onu.register.value(),
                trip: onu.trip,
                kind,
                message: onu.saying(self.free),
            });
        }
    }

    // The grants of the slots from one on.
    fn answer_row(&self, grants: &[u8], slot: u64, bursts: &mut Vec<Burst>)
        requires slot { slot + length grants.now ≤ 2 ^ 54 }
        requires room { length grants.now ≤ room_in bursts.old }
        ensures { Appended bursts.old bursts.new (replies self.now slot grants.now) }
    {
        for (i, grant) in grants.iter().enumerate() {
            self.answer_grant(*grant, slot + i as u64, bursts);
        }
    }

    // One group's grants, where its check byte fits.
    fn answer_group(&self, cell: &Cell, group: Group, slot: u64, bursts: &mut Vec<Burst>)
        requires slot { slot + size_of group ≤ 2 ^ 54 }
        requires room { size_of group ≤ room_in bursts.old }
        ensures { Appended bursts.old bursts.new (replies self.now slot (heard_group group cell.now.bytes.now)) }
    {
        if cell.check_group(group).is_ok() {
            self.answer_row(cell.group(group), slot, bursts);
        }
    }

    // All grants of a cell.
    pub(crate) fn answer_cell(&self, cell: &Cell, first: u64, bursts: &mut Vec<Burst>)
        requires cell { length cell.now.bytes.now ≡ 48 }
        requires first { first + 27 ≤ 2 ^ 54 }
        requires room { 27 ≤ room_in bursts.old }
        ensures { Appended bursts.old bursts.new (replies self.now first (heard_grants cell.now.bytes.now)) }
    {
        self.answer_group(cell, Group::First, first, bursts);
        self.answer_group(cell, Group::Second, first + 7, bursts);
        self.answer_group(cell, Group::Third, first + 14, bursts);
        self.answer_group(cell, Group::Fourth, first + 21, bursts);
    }
}
