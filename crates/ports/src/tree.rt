// A line with 65 ports behind a common fibre and a common drop.
ghost use Rattle.std.specs.Prelude.{◌≡◌, ℕ, ◌+◌, false, length, None, IfOk, nat_eq};
ghost use Rattle.field.specs.Number.{capped};
ghost use Rattle.plant.specs.Lawful.{Drifts};
ghost use Rattle.bench.specs.Bench.{met};
ghost use Rattle.ports.specs.declared.tree.TheConstants.{PORTS};
ghost use Rattle.ports.specs.Tree.{onu_in, line_means, port_at, onu_of, host_move, AsNew, Changed, Plugged, AtPort};

use bench::bench_onu::BenchOnu;
use cell::reader::Cell;
use fibre::{Fibre, FibreBits};
use field::number::SerialNumber;
use lossy_drop::LossyDrop;
use onu::state::Onu;
use outlet::Outlet;
use plant::burst::Burst;
use plant::plant::Plant;
use splitter::Splitter;
use star::Star;
use std::alloc::{AllocError, Global};

pub const PORTS: usize = 65;

// The port beside the star.
const LAST: usize = 64;

// A drop, a length of fibre, and an outlet at its end.
type Port = LossyDrop<Fibre<Outlet<BenchOnu>>>;

// Ports 0 to 63 are the arms of a star, port 64 is the second side of a splitter before it.
#[derive(Drop)]
pub struct Tree {
    line: Fibre<LossyDrop<Splitter<Star<Port>, Port>>>,
}

// What is done to one port; the ONU in it stays.
#[derive(Clone, Copy)]
pub enum Change {
    FibreBits(u64),
    // a pattern, begun anew
    Pattern(u64),
    Host(HostEvent),
}

// What the host does to a bench ONU.
#[derive(Clone, Copy)]
pub enum HostEvent {
    SignalLost,
    SignalBack,
    PowerLost,
    Trip(u64),
}

fn empty_port() -> Port
    ensures plant { result.plant.plant.plant ≡ None }
    ensures bits { result.plant.bits ≡ capped 32000 0 }
    ensures pattern { result.pattern ≡ 0 }
{
    LossyDrop::new(Fibre::new(Outlet { plant: None }, 0), 0)
}

fn happen(onu: &mut BenchOnu, event: HostEvent)
    ensures { onu.new.machine ≡ met (host_move event) onu.old.machine }
{
    match event {
        HostEvent::SignalLost => onu.lose_signal(),
        HostEvent::SignalBack => onu.regain_signal(),
        HostEvent::PowerLost => onu.lose_power(),
        HostEvent::Trip(bits) => onu.move_trip(bits),
    }
}

fn change_port(port: &mut Port, change: Change)
    ensures { Changed change port.old port.new }
{
    match change {
        Change::FibreBits(bits) => port.plant.bits = FibreBits::saturating(bits),
        Change::Pattern(pattern) => port.pattern = pattern,
        Change::Host(event) => {
            if let Some(onu) = &mut port.plant.plant.plant {
                happen(onu, event);
            }
        }
    }
}

fn plug_in(port: &mut Port, serial: SerialNumber, trip: u64)
    ensures { Plugged serial trip port.old port.new }
{
    port.plant.plant.plant = Some(BenchOnu::new(serial, trip));
}

fn plugged(port: &Port) -> Option<Onu>
    ensures { result ≡ onu_in port.now }
{
    port.plant.plant.plant.as_ref().map(|onu| onu.look())
}

impl Tree {
    // All ports empty, and neither length nor loss anywhere.
    pub fn new(heap: Global) -> Result<Tree, AllocError>
        ensures feeder { IfOk result (λ t. (t.line.bits ≡ capped 32000 0) × (t.line.plant.pattern ≡ 0)) }
        ensures ports { IfOk result (λ t. length t.line.plant.plant.one.arms.items + 1 ≡ PORTS) }
        ensures arms { IfOk result (λ t. length t.line.plant.plant.one.arms.items ≡ 64) }
        ensures empty { IfOk result (λ t. (n : ℕ) → AsNew (port_at n t)) }
    {
        let arms = (0..LAST).map(|_| empty_port()).collect(heap)?;
        let ports = Splitter::new(Star::new(arms), empty_port());
        Ok(Tree {
            line: Fibre::new(LossyDrop::new(ports, 0), 0),
        })
    }

    // Puts a bench ONU into a port, in place of what was there.
    pub fn plug(&mut self, port: usize, serial: SerialNumber, trip: u64)
        ensures port { AtPort (Plugged serial trip) (port_at port self.old) (port_at port self.new) }
        ensures others { (n : ℕ) → nat_eq n port ≡ false → port_at n self.new ≡ port_at n self.old }
        ensures bits { self.new.line.bits ≡ self.old.line.bits }
        ensures pattern { self.new.line.plant.pattern ≡ self.old.line.plant.pattern }
    {
        let Splitter { one, two } = &mut self.line.plant.plant;
        if port == LAST {
            plug_in(two, serial, trip);
        } else if let Some(arm) = one.arms.get_mut(port) {
            plug_in(arm, serial, trip);
        }
    }

    pub fn change(&mut self, port: usize, change: Change)
        ensures port { AtPort (Changed change) (port_at port self.old) (port_at port self.new) }
        ensures others { (n : ℕ) → nat_eq n port ≡ false → port_at n self.new ≡ port_at n self.old }
        ensures bits { self.new.line.bits ≡ self.old.line.bits }
        ensures pattern { self.new.line.plant.pattern ≡ self.old.line.plant.pattern }
        ensures drifts { Drifts (line_means self.old) (line_means self.new) }
    {
        if port == LAST {
            change_port(&mut self.line.plant.plant.two, change);
        } else if let Some(arm) = self.line.plant.plant.one.arms.get_mut(port) {
            change_port(arm, change);
        }
    }

    // The ONU in a port, as it is now.
    pub fn look(&self, port: usize) -> Option<Onu>
        ensures { result ≡ onu_of (port_at port self.now) }
    {
        if port == LAST {
            plugged(&self.line.plant.plant.two)
        } else {
            plugged(self.line.plant.plant.one.arms.get(port)?)
        }
    }

    #[tactic(auto, using(fibre::specs::Far::drifts_over, plant::proofs::Lists::drifts_still))]
    pub fn set_feeder(&mut self, bits: u64)
        ensures bits { self.new.line.bits ≡ capped 32000 bits }
        ensures plant { self.new.line.plant ≡ self.old.line.plant }
        ensures drifts { Drifts (line_means self.old) (line_means self.new) }
    {
        self.line.bits = FibreBits::saturating(bits);
    }

    #[tactic(auto, using(plant::proofs::Lists::drifts_still))]
    pub fn set_feeder_pattern(&mut self, pattern: u64)
        ensures pattern { self.new.line.plant.pattern ≡ pattern }
        ensures bits { self.new.line.bits ≡ self.old.line.bits }
        ensures ports { self.new.line.plant.plant ≡ self.old.line.plant.plant }
        ensures drifts { Drifts (line_means self.old) (line_means self.new) }
    {
        self.line.plant.pattern = pattern;
    }
}

impl Plant for Tree {
    ghost use Rattle.ports.specs.Lawful.{tree_does, tree_law, tree_few, tree_sound};

    ghost means = { λ t. line_means t };

    ghost does = { λ s p f t new. tree_does s p f t new };

    ghost few = { λ t. tree_few t };

    ghost sound = { λ t. tree_sound t };

    ghost lawful = { λ s t p f new l h d. tree_law s t p f new l h d };

    fn count(&self) -> usize {
        self.line.count()
    }

    fn accept(&mut self, cell: &Cell, first: u64, bursts: &mut Vec<Burst>) {
        self.line.accept(cell, first, bursts);
    }
}
