// A frame's report: made by the bench receiver of what was heard, and settled.
ghost use Rattle.std.specs.Prelude.{◌≡◌, vec_capacity};
ghost use Rattle.head.specs.Steps.{settle_answer, settle_head, handed_back};
ghost use Rattle.receiver.specs.Receiver.{reported};
ghost use Rattle.driver.specs.Driver.{kept, Goes};

use super::Line;
use head::docket::{Docket, Refused};
use plant::plant::Plant;
use receiver::receive::receive;

impl<P: Plant> Line<P> {
    // The report of a docket's frame, of which marked slots are missed; then its bursts are let go.
    pub fn settle(&mut self, docket: Docket, marks: &[u8; 53]) -> Result<(), Refused>
        ensures answer { result ≡ handed_back docket.frame (settle_answer self.old.head docket.frame 954) }
        ensures head { self.new.head ≡ settle_head self.old.head docket.frame (reported docket.frame self.old.bursts.items marks.now 53) }
        ensures plant { self.new.plant ≡ self.old.plant }
        ensures bursts { self.new.bursts.items ≡ kept (settle_answer self.old.head docket.frame 954) docket.frame self.old.bursts.items }
        ensures room { vec_capacity self.new.bursts ≡ vec_capacity self.old.bursts }
        ensures goes { Goes P.Plant.means P.Plant.does self.old self.new }
    {
        let frame = docket.frame();
        let mut report = [0; 954];
        receive(frame, &self.bursts, marks, &mut report).unwrap();
        self.head.settle(docket, &report)?;
        self.bursts.retain(|burst| burst.slot / 53 > frame);
        Ok(())
    }
}
