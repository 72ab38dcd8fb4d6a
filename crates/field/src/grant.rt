// A grant: who may send in one upstream slot.
ghost use Rattle.std.specs.Prelude.{◌≡◌};
ghost use Rattle.field.specs.Grant.{grant_of, code_of, GrantAndByteAgree};

use crate::bounded::GrantCode;

#[derive(Clone, Copy, PartialEq, Eq)]
pub enum Grant {
    // the ONU that was given this code, for data or for a PLOAM cell
    Code(GrantCode),
    // any ONU that is in ranging
    Ranging,
    // nobody
    Unassigned,
    // no slot at all
    Idle,
}

impl From<u8> for Grant {
    ghost from_gives = { λ byte grant. grant ≡ grant_of byte };

    fn from(byte: u8) -> Grant {
        match GrantCode::new(byte) {
            Some(code) => Grant::Code(code),
            None => match byte {
                253 => Grant::Ranging,
                254 => Grant::Unassigned,
                _ => Grant::Idle,
            },
        }
    }
}

impl From<Grant> for u8 {
    ghost from_gives = { λ grant byte. byte ≡ code_of grant };

    fn from(grant: Grant) -> u8 {
        match grant {
            Grant::Code(code) => code.value(),
            Grant::Ranging => 253,
            Grant::Unassigned => 254,
            Grant::Idle => 255,
        }
    }
}

impl Grant {
    // A grant and its byte stand for each other.
    pub fn through_byte(self) -> Grant
        ensures value { result ≡ self }
        ensures law { GrantAndByteAgree }
    {
        Grant::from(u8::from(self))
    }
}
