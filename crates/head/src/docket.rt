// What a sent frame leaves in the host's hands until its report comes.
ghost use Rattle.std.specs.Prelude.{◌≡◌};

use crate::refusal::Refusal;

// It is spent by settling, or handed back; it cannot be let go.
pub struct Docket {
    pub(crate) frame: u64,
}

impl Docket {
    // The number of the frame that was sent.
    pub fn frame(&self) -> u64
        ensures { result ≡ self.now.frame }
    {
        self.frame
    }
}

// A docket that was not settled, and why.
pub struct Refused {
    pub docket: Docket,
    pub why: Refusal,
}
