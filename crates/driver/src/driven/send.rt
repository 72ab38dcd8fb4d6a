// A frame: room for its bursts, the head's send, and both cells heard.
ghost use Rattle.std.specs.Prelude.{◌≡◌, ◌*◌, ◌^◌, ◌<◌, ◌≤◌, length, vec_capacity};
ghost use Rattle.plant.specs.Hearing.{Admitted, Taken, room_in};
ghost use Rattle.head.specs.Steps.{send_answer, sent_bytes};
ghost use Rattle.driver.specs.Driver.{Heard, Sent, Went, after_send};

use super::Line;
use crate::halt::Halt;
use head::docket::Docket;
use plant::plant::Plant;

impl<P: Plant> Line<P> {
    // A cell whose bursts there is room for.
    fn hear_cell(&mut self, payload: &[u8], first: u64)
        requires { Admitted (length (P.Plant.means self.old.plant)) payload.now first self.old.bursts }
        ensures head { self.new.head ≡ self.old.head }
        ensures taken { Taken P.Plant.does self.old.plant payload.now first self.old.bursts self.new.plant self.new.bursts }
    {
        self.plant.hear(payload, first, &mut self.bursts).unwrap();
    }

    // Both cells of a frame, in order.
    fn hear_frame(&mut self, bytes: &[u8; 96], frame: u64)
        requires room { 54 * length (P.Plant.means self.old.plant) ≤ room_in self.old.bursts }
        requires early { frame < 2 ^ 48 }
        ensures head { self.new.head ≡ self.old.head }
        ensures heard { Heard P.Plant.does bytes.now frame self.old self.new }
        ensures room { vec_capacity self.new.bursts ≡ vec_capacity self.old.bursts }
    {
        let first = 53 * frame;
        self.hear_cell(&bytes[..48], first);
        self.hear_cell(&bytes[48..], first + 27);
    }

    // The next frame goes into a buffer, and the plant hears it.
    pub fn send(&mut self, buffer: &mut [u8; 96]) -> Result<Docket, Halt>
        ensures sent { Sent P.Plant.means P.Plant.does result self.old self.new }
        ensures buffer { buffer.new ≡ after_send result (sent_bytes self.old.head) buffer.old }
        ensures room { vec_capacity self.old.bursts ≤ vec_capacity self.new.bursts }
        ensures goes { Went P.Plant.means P.Plant.does result self.old self.new }
    {
        let room = 54 * self.plant.count();
        self.bursts.reserve(room).map_err(|_| Halt::Room)?;
        let docket = self.head.send(buffer).map_err(Halt::Refused)?;
        self.hear_frame(buffer, docket.frame());
        Ok(docket)
    }
}
