// What a host does to the plant between the head's calls.
ghost use Rattle.std.specs.Prelude.{◌≡◌};
ghost use Rattle.std.specs.Borrow.{Lends, sem};
ghost use Rattle.driver.specs.Driver.{with_plant, GoesDrifting};
ghost use Rattle.driver.specs.contracts.driven.Line.{the_row};

use super::Line;
use plant::plant::Plant;

impl<P: Plant> Line<P> {
    // The plant, to be changed: the line ends with what is left of it.
    pub fn plant_mut(&mut self) -> &mut P
        ensures* writes_back { sem 𝓛 (Lends (the_row P.row) P.row self.entry result (λ plant. with_plant plant self.old)) }
        ensures plant { result.now ≡ self.old.plant }
        ensures goes { GoesDrifting P.Plant.means P.Plant.does self.old }
    {
        &mut self.plant
    }
}
