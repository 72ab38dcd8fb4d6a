// What the laws over whole runs say of a line that is driven.
ghost use Rattle.driver.specs.Driver.{Undisturbed};

use line::laws::no_overlap;
use plant::plant::Plant;

// Whatever was called: no two bursts that were heard overlap.
pub fn undisturbed<P: Plant>()
    ensures { Undisturbed P.Plant.means P.Plant.does }
{
    no_overlap::<P>();
}
