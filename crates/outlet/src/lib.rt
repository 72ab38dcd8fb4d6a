// A socket at the end of a line, with a plant in it or with none.
#![tactic(auto)]

ghost use Rattle.outlet.specs.Outlet.{plugged, OutletDoes};
ghost use Rattle.outlet.specs.Outlets.{outlet_lawful};
ghost use Rattle.std.proofs.Common.{rules};

use cell::reader::Cell;
use plant::burst::Burst;
use plant::plant::Plant;

#[derive(Drop)]
pub struct Outlet<P> {
    pub plant: Option<P>,
}

impl<P: Plant> Plant for Outlet<P> {
    ghost means = { λ s. plugged P.Plant.means s.plant };

    ghost does = { λ s p f t new. OutletDoes P.Plant.does s.plant p f t.plant new };

    ghost few = { Prim.search rules };

    ghost sound = { Prim.search rules };

    ghost lawful = { λ x y p f new l h d. outlet_lawful P.Plant.means P.Plant.does P.Plant.lawful x.plant y.plant p f new l h d };

    fn count(&self) -> usize {
        self.plant.as_ref().map_or(0, |plant| plant.count())
    }

    fn accept(&mut self, cell: &Cell, first: u64, bursts: &mut Vec<Burst>) {
        if let Some(plant) = &mut self.plant {
            plant.accept(cell, first, bursts);
        }
    }
}
