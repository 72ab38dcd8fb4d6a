// Two plants on one line.
#![tactic(auto)]

ghost use Rattle.std.specs.Prelude.{◌≡◌, ◌+◌, length};
ghost use Rattle.splitter.specs.Splitter.{joined, SplitDoes};
ghost use Rattle.splitter.specs.Splits.{joined_few, joined_sound, split_lawful};

use cell::reader::Cell;
use plant::burst::Burst;
use plant::plant::Plant;

// The second side is dark where both together mean more than 64 ONUs.
#[derive(Drop)]
pub struct Splitter<A, B> {
    pub one: A,
    pub two: B,
}

impl<A, B> Splitter<A, B> {
    pub fn new(one: A, two: B) -> Splitter<A, B>
        ensures { (result.one ≡ one) × (result.two ≡ two) }
    {
        Splitter { one, two }
    }
}

impl<P: Plant, Q: Plant> Plant for Splitter<P, Q> {
    ghost means = { λ s. joined (P.Plant.means s.one) (Q.Plant.means s.two) };

    ghost does = { λ s p f t new. SplitDoes P.Plant.does Q.Plant.does (length (P.Plant.means s.one) + length (Q.Plant.means s.two)) s.one s.two p f t.one t.two new };

    ghost few = { λ x. joined_few _ _ (P.Plant.few x.one) };

    ghost sound = { λ x. joined_sound (P.Plant.means x.one) (Q.Plant.means x.two) (P.Plant.sound x.one) (Q.Plant.sound x.two) };

    ghost lawful = { λ x y p f new l h d. split_lawful P.Plant.means Q.Plant.means P.Plant.does Q.Plant.does P.Plant.lawful Q.Plant.lawful x.one y.one x.two y.two p f new l h d };

    fn count(&self) -> usize {
        let one = self.one.count();
        let both = one + self.two.count();
        if both <= 64 { both } else { one }
    }

    fn accept(&mut self, cell: &Cell, first: u64, bursts: &mut Vec<Burst>) {
        let dark = self.one.count() + self.two.count() > 64;
        self.one.accept(cell, first, bursts);
        if !dark {
            self.two.accept(cell, first, bursts);
        }
    }
}
