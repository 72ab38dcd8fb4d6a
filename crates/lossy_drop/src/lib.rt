// A drop before a plant that spoils cells by a pattern.
#![tactic(auto)]

ghost use Rattle.std.specs.Prelude.{◌≡◌, length};
ghost use Rattle.lossy_drop.specs.LossyDrop.{wrong, spoiled, lowest, turned, DropDoes};
ghost use Rattle.lossy_drop.specs.Deaf.{drop_lawful};
ghost use Rattle.std.proofs.Common.{rules};

use cell::fault::Group;
use cell::reader::Cell;
use field::check::{check_byte, check_byte_and_zero};
use plant::burst::Burst;
use plant::plant::Plant;

// 64 bits, the lowest first, over and over: a cell at a 1 is spoiled.
#[derive(Drop)]
pub struct LossyDrop<P> {
    pub plant: P,
    pub pattern: u64,
}

// A byte that differs from the right one.
fn wrong_byte(right: u8) -> u8
    ensures { result ≡ wrong right }
{
    u8::from(right == 0)
}

// A copy of a cell with all five check bytes wrong.
#[tactic(auto, unfolding(crate::specs::LossyDrop::spoiled))]
fn spoil(cell: &Cell) -> [u8; 48]
    requires { length cell.now.bytes.now ≡ 48 }
    ensures { result ≡ spoiled cell.now.bytes.now }
{
    let mut copy = *cell.bytes;
    copy[10] = wrong_byte(check_byte(cell.group(Group::First)));
    copy[18] = wrong_byte(check_byte(cell.group(Group::Second)));
    copy[26] = wrong_byte(check_byte(cell.group(Group::Third)));
    copy[33] = wrong_byte(check_byte_and_zero(cell.group(Group::Fourth)));
    copy[46] = wrong_byte(check_byte(cell.message_bytes()));
    copy
}

fn is_spoiled(pattern: u64) -> bool
    ensures { result ≡ lowest pattern }
{
    pattern % 2 == 1
}

// The pattern for the next cell.
fn turn(pattern: u64) -> u64
    ensures { result ≡ turned pattern }
{
    pattern.rotate_right(1)
}

impl<P> LossyDrop<P> {
    pub fn new(plant: P, pattern: u64) -> LossyDrop<P>
        ensures { (result.plant ≡ plant) × (result.pattern ≡ pattern) }
    {
        LossyDrop { plant, pattern }
    }
}

impl<P: Plant> Plant for LossyDrop<P> {
    ghost means = { λ s. P.Plant.means s.plant };

    ghost does = { λ s p f t new. DropDoes P.Plant.does s.plant s.pattern p f t.plant t.pattern new };

    ghost few = { Prim.search rules };

    ghost sound = { Prim.search rules };

    ghost lawful = { λ x y p f new l h d. drop_lawful P.Plant.means P.Plant.does P.Plant.lawful x.plant y.plant p f new l h x.pattern d.0 };

    fn count(&self) -> usize {
        self.plant.count()
    }

    fn accept(&mut self, cell: &Cell, first: u64, bursts: &mut Vec<Burst>) {
        if is_spoiled(self.pattern) {
            let bytes = &spoil(cell);
            self.plant.accept(&Cell { bytes }, first, bursts);
        } else {
            self.plant.accept(cell, first, bursts);
        }
        self.pattern = turn(self.pattern);
    }
}
