// A length of fibre before a plant.
#![tactic(auto)]

ghost use Rattle.std.specs.Prelude.{◌≡◌, map};
ghost use Rattle.field.specs.Number.{capped};
ghost use Rattle.fibre.specs.Fibre.{far, farther, FibreDoes};
ghost use Rattle.fibre.specs.Far.{few_far, sound_far, fibre_lawful};

use cell::reader::Cell;
use field::number::Number;
use onu::state::RoundTrip;
use plant::burst::Burst;
use plant::plant::Plant;

// Bits that a length of fibre adds to a round trip.
pub type FibreBits = Number<32000>;

#[derive(Drop)]
pub struct Fibre<P> {
    pub plant: P,
    pub bits: FibreBits,
}

fn put_off(burst: Burst, bits: FibreBits) -> Burst
    ensures { result ≡ farther bits.value burst }
{
    let trip = RoundTrip::saturating(burst.trip.value() + bits.value());
    let later = trip.value().saturating_sub(burst.trip.value());
    Burst {
        start: burst.start.saturating_add(later),
        trip,
        ..burst
    }
}

impl<P> Fibre<P> {
    // More than 32,000 bits count as that.
    pub fn new(plant: P, bits: u64) -> Fibre<P>
        ensures { (result.plant ≡ plant) × (result.bits ≡ capped 32000 bits) }
    {
        let bits = FibreBits::saturating(bits);
        Fibre { plant, bits }
    }
}

impl<P: Plant> Plant for Fibre<P> {
    ghost means = { λ s. map (far s.bits.value) (P.Plant.means s.plant) };

    ghost does = { λ s p f t new. FibreDoes P.Plant.does s.plant s.bits p f t.plant t.bits new };

    ghost few = { λ x. few_far x.bits.value _ (P.Plant.few x.plant) };

    ghost sound = { λ x. sound_far x.bits.value (P.Plant.means x.plant) (P.Plant.sound x.plant) };

    ghost lawful = { λ x y p f new l h d. fibre_lawful P.Plant.means P.Plant.does P.Plant.lawful x.plant y.plant x.bits y.bits p f new l h d };

    fn count(&self) -> usize {
        self.plant.count()
    }

    fn accept(&mut self, cell: &Cell, first: u64, bursts: &mut Vec<Burst>) {
        let before = bursts.len();
        self.plant.accept(cell, first, bursts);
        for burst in bursts[before..].iter_mut() {
            *burst = put_off(*burst, self.bits);
        }
    }
}
