// Plants within plants are plants: one nested line.
#![tactic(auto)]

ghost use Rattle.std.specs.Prelude.{[], ◌∷◌, OnOk};
ghost use Rattle.plant.specs.Hearing.{HeardBy};
ghost use Rattle.fibre.specs.Fibre.{far};

use bench::bench_onu::BenchOnu;
use fibre::Fibre;
use lossy_drop::LossyDrop;
use plant::burst::Burst;
use plant::hearing::HearFault;
use plant::plant::hear_lawfully;
use splitter::Splitter;

// A bench ONU behind a lossy drop at the end of a fibre, and one beside it: both hear the cell lawfully.
pub fn hear_two(
    line: &mut Splitter<Fibre<LossyDrop<BenchOnu>>, BenchOnu>,
    payload: &[u8],
    first: u64,
    bursts: &mut Vec<Burst>,
) -> Result<(), HearFault>
    ensures { OnOk result (HeardBy (far line.old.one.bits.value line.old.one.plant.plant.machine.onu ∷ line.old.two.machine.onu ∷ []) payload.now first bursts.old.items (far line.new.one.bits.value line.new.one.plant.plant.machine.onu ∷ line.new.two.machine.onu ∷ []) bursts.new.items) }
{
    hear_lawfully(line, payload, first, bursts)
}

#[cfg(test)]
mod trials;
