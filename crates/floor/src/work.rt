// Work on the plant.
ghost use Rattle.plant.specs.Lawful.{Drifts};
ghost use Rattle.ports.specs.Tree.{line_means};

use crate::command::Work;
use ports::tree::{Change, HostEvent, Tree};

// Its ONUs might have done it by themselves.
#[tactic(auto, using(plant::proofs::Lists::drifts_twice))]
pub fn work(plant: &mut Tree, task: Work)
    ensures { Drifts (line_means plant.old) (line_means plant.new) }
{
    match task {
        Work::Port { port, change } => plant.change(port, change),
        Work::Feeder(bits) => plant.set_feeder(bits),
        Work::FeederPattern(pattern) => plant.set_feeder_pattern(pattern),
        Work::Cut(port) => {
            plant.change(port, Change::Pattern(u64::MAX));
            plant.change(port, Change::Host(HostEvent::SignalLost));
        }
        Work::Mend(port) => {
            plant.change(port, Change::Pattern(0));
            plant.change(port, Change::Host(HostEvent::SignalBack));
        }
    }
}
