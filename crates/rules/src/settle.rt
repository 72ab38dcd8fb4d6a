// What one record of a report makes of the place that its slot falls to.
ghost use Rattle.std.specs.Prelude.{◌≡◌};
ghost use Rattle.rules.specs.Settle.{row_after};

use crate::row::Row;
use crate::slot::Slot;
use field::bounded::Guard;
use report::record::Record;

impl Row {
    // In a window the last slot ends the running job; elsewhere a record counts if its slot was granted in service.
    pub fn settle(&mut self, guard: Guard, now: u64, slot: Slot, heard: &Record)
        ensures { self.new ≡ row_after guard.value now slot.frame slot.x heard.now self.old }
    {
        if slot.in_window() {
            if slot.ends_window() {
                self.end_job(guard, now, heard);
            }
        } else if self.in_service() && self.since <= slot.frame {
            self.count(guard, slot.x == 1, heard);
        }
    }
}
