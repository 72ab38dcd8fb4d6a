// The laws over whole successions of calls.
ghost use Rattle.line.specs.Independence.{Independence};
ghost use Rattle.line.specs.Kept.{HeadsStand};
ghost use Rattle.line.specs.NoOverlap.{NoOverlap};

use plant::plant::Plant;

// Whatever the calls, and whatever the plant does lawfully: no two bursts overlap.
pub fn no_overlap<P: Plant>()
    ensures { NoOverlap P.Plant.means P.Plant.does }
{}

// Whatever reports say in one place's slots, nobody else is told anything else.
pub fn independence()
    ensures { Independence }
{}

// Whatever the calls, and whatever they are handed: what every head keeps.
pub fn heads_stand()
    ensures { HeadsStand }
{}
