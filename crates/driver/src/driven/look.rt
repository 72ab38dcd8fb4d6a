// A new line, and what is seen of it.
ghost use Rattle.std.specs.Prelude.{◌≡◌, ◌*◌, ◌≤◌, [], length, vec_capacity, IfOk, All};
ghost use Rattle.head.specs.Steps.{fresh, look_answer};
ghost use Rattle.line.specs.Run.{New, Distinct};
ghost use Rattle.driver.specs.Driver.{Came};

use super::Line;
use head::head::Head;
use head::head::look::View;
use head::refusal::Refusal;
use plant::burst::Burst;
use plant::plant::Plant;
use std::alloc::{AllocError, Global};

impl<P: Plant + Drop> Line<P> {
    // A new head before a plant, with room for the bursts of four frames.
    pub fn new(heap: Global, plant: P) -> Result<Line<P>, AllocError>
        ensures head { IfOk result (λ line. line.head ≡ fresh) }
        ensures plant { IfOk result (λ line. line.plant ≡ plant) }
        ensures bursts { IfOk result (λ line. line.bursts.items ≡ []) }
        ensures room { IfOk result (λ line. 216 * length (P.Plant.means plant) ≤ vec_capacity line.bursts) }
        ensures comes { IfOk result (λ line. All New (P.Plant.means plant) → Distinct (P.Plant.means plant) → Came P.Plant.means P.Plant.does line []) }
    {
        let room = 216 * plant.count();
        let bursts = Vec::with_capacity(heap, room)?;
        Ok(Line {
            head: Head::new(),
            plant,
            bursts,
        })
    }
}

impl<P: Plant> Line<P> {
    // What is known of a place; none if it is empty.
    pub fn look(&self, place: u64) -> Result<Option<View>, Refusal>
        ensures { result ≡ look_answer self.now.head place }
    {
        self.head.look(place)
    }

    pub fn plant(&self) -> &P
        ensures { result.now ≡ self.now.plant }
    {
        &self.plant
    }

    // Those that were heard of the frames that are out.
    pub fn bursts(&self) -> &[Burst]
        ensures { result.now ≡ self.now.bursts.items }
    {
        &self.bursts
    }
}
