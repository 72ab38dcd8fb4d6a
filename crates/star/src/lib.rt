// A splitter with any number of arms.
#![tactic(auto)]

ghost use Rattle.std.specs.Prelude.{◌≡◌, [], refl};
ghost use Rattle.star.specs.Star.{lighted, Arms};
ghost use Rattle.std.proofs.Common.{arith};
ghost use Rattle.star.specs.Lit.{lighted_few, lighted_sound, star_lawful};

use cell::reader::Cell;
use plant::burst::Burst;
use plant::plant::Plant;

// An arm that would make more than 64 ONUs with the lit ones before it is dark.
#[derive(Drop)]
pub struct Star<P> {
    pub arms: Vec<P>,
}

impl<P> Star<P> {
    pub fn new(arms: Vec<P>) -> Star<P>
        ensures { result.arms ≡ arms }
    {
        Star { arms }
    }
}

impl<P: Plant> Plant for Star<P> {
    ghost means = { λ s. lighted P.Plant.means [] s.arms.items };

    ghost does = { λ s p f t new. Arms P.Plant.means P.Plant.does p f 0 s.arms.items t.arms.items new };

    ghost few = { λ x. lighted_few P.Plant.means [] x.arms.items (omega arith) };

    ghost sound = { λ x. lighted_sound P.Plant.means P.Plant.sound [] x.arms.items refl };

    ghost lawful = { λ x y p f new l h d. star_lawful P.Plant.means P.Plant.does p f P.Plant.lawful l h d };

    fn count(&self) -> usize {
        let mut lit = 0;
        for arm in &self.arms {
            let more = arm.count();
            if lit + more <= 64 {
                lit += more;
            }
        }
        lit
    }

    fn accept(&mut self, cell: &Cell, first: u64, bursts: &mut Vec<Burst>) {
        let mut lit = 0;
        for arm in self.arms.iter_mut() {
            let with_arm = lit + arm.count();
            if with_arm <= 64 {
                arm.accept(cell, first, bursts);
                lit = with_arm;
            }
        }
    }
}
