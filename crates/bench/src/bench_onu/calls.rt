ghost use Rattle.std.specs.Prelude.{◌≡◌, [], ◌∷◌};
ghost use Rattle.onu.specs.declared.event.OwnEvent.TheVariants.{SignalLoss, SignalReturn, PowerLoss};
ghost use Rattle.field.specs.Number.{capped};
ghost use Rattle.plant.specs.Lawful.{own, drift};
ghost use Rattle.bench.specs.Bench.{Meets, new_machine, BenchDoes};
ghost use Rattle.bench.specs.Benches.{bench_lawful};
ghost use Rattle.std.proofs.Common.{rules, arith};

use super::BenchOnu;
use crate::machine::Machine;
use cell::reader::Cell;
use field::number::SerialNumber;
use onu::event::{Event, OwnEvent};
use onu::state::{Onu, RoundTrip};
use plant::burst::Burst;
use plant::plant::Plant;

impl BenchOnu {
    // In O1, before its first cell; a round trip above 1,000,000 bits counts as that.
    pub fn new(serial: SerialNumber, trip: u64) -> BenchOnu
        ensures { result.machine ≡ new_machine serial (capped 1000000 trip) }
    {
        BenchOnu {
            machine: Machine {
                onu: Onu::new(serial, RoundTrip::saturating(trip)),
                fresh: true,
                ranging: 0,
                popup: 0,
            },
        }
    }

    // The ONU as it is now.
    pub fn look(&self) -> Onu
        ensures { result ≡ self.now.machine.onu }
    {
        self.machine.onu
    }

    // Something that happens to its ONU between cells.
    #[tactic(auto, using(onu::proofs::Table::happened_keeps))]
    fn meet(&mut self, event: OwnEvent)
        ensures { Meets (own event) self.old.machine self.new.machine }
    {
        self.machine.onu.step(&Event::Own(event));
    }

    pub fn lose_signal(&mut self)
        ensures { Meets (own SignalLoss) self.old.machine self.new.machine }
    {
        self.meet(OwnEvent::SignalLoss);
    }

    pub fn regain_signal(&mut self)
        ensures { Meets (own SignalReturn) self.old.machine self.new.machine }
    {
        self.meet(OwnEvent::SignalReturn);
    }

    pub fn lose_power(&mut self)
        ensures { Meets (own PowerLoss) self.old.machine self.new.machine }
    {
        self.meet(OwnEvent::PowerLoss);
    }

    // Its round trip moves; above 1,000,000 bits counts as that.
    pub fn move_trip(&mut self, bits: u64)
        ensures { Meets (drift (capped 1000000 bits)) self.old.machine self.new.machine }
    {
        self.machine.onu.trip = RoundTrip::saturating(bits);
    }
}

impl Plant for BenchOnu {
    ghost means = { λ s. s.machine.onu ∷ [] };

    ghost does = { λ s p f t new. BenchDoes s.machine p f t.machine new };

    ghost few = { first_of (Prim.search rules, Prim.grind (arith, Self.row.coded.inj)) };

    ghost sound = { first_of (Prim.search rules, Prim.grind (arith, Self.row.coded.inj)) };

    ghost lawful = { λ x y p f new l h d. bench_lawful x.machine y.machine p f new d };

    fn count(&self) -> usize {
        1
    }

    fn accept(&mut self, cell: &Cell, first: u64, bursts: &mut Vec<Burst>) {
        self.machine.take_cell(cell, first, bursts);
    }
}
