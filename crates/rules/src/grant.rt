// What a slot grants.
ghost use Rattle.std.specs.Prelude.{◌≡◌};
ghost use Rattle.rules.specs.Grant.{granted, code, slot_grant};

use crate::clamp::clamp;
use crate::row::Row;
use crate::slot::Slot;
use field::bounded::PonId;
use field::grant::Grant;

impl Slot {
    // Whether the place that the slot falls to may send in it.
    pub fn is_granted(self, row: &Row) -> bool
        ensures { result ≡ granted self.frame self.x row.now }
    {
        if self.in_window() {
            self.ends_window() && row.running.is_some_and(|job| job.ranges())
        } else {
            row.in_service()
        }
    }

    // What it grants to a place, whose record this is.
    pub fn grant(self, place: PonId, row: &Row) -> Grant
        ensures { result ≡ slot_grant self.frame self.x place row.now }
    {
        if !self.is_granted(row) {
            Grant::Unassigned
        } else if self.in_window() || self.x == 1 {
            Grant::Code(clamp(64 + place.value()))
        } else {
            Grant::Code(clamp(place.value()))
        }
    }
}
