// Why twelve bytes are no message.
ghost use Rattle.std.specs.Prelude.{Some};
ghost use Rattle.message.specs.Fault.{field_name, fault_words};

use std::fmt;

// A field whose value a message does not allow.
#[derive(Clone, Copy, PartialEq, Eq)]
pub enum Field {
    Part,
    GuardBits,
    DelayBits,
    MaskBits,
    AssignedId,
    AccessCode,
    UpdateCount,
    DataCode,
    DataFlag,
    PloamCode,
    PloamFlag,
    ActiveFlag,
    SlotCode,
    SlotOffset,
    SlotLength,
    VpiBits,
    Line,
}

#[derive(Clone, Copy, PartialEq, Eq)]
pub enum MessageFault {
    // no message has this identifier
    UnknownIdentifier(u8),
    // the message does not go to this address
    WrongAddress(u8),
    // the first field that is out of range
    OutOfRange(Field),
}

// The field's name, as the readable form of a message has it.
impl fmt::Display for Field {
    ghost output = { λ field. Some (field_name field) };

    fn fmt<W: fmt::Write>(&self, f: &mut fmt::Formatter<W>) -> fmt::Result {
        f.write_str(match self {
            Field::Part => "part",
            Field::GuardBits => "guard",
            Field::DelayBits => "delay",
            Field::MaskBits => "bits",
            Field::AssignedId => "pon_id",
            Field::AccessCode => "access",
            Field::UpdateCount => "count",
            Field::DataCode => "data",
            Field::DataFlag => "data_active",
            Field::PloamCode => "ploam",
            Field::PloamFlag => "ploam_active",
            Field::ActiveFlag => "active",
            Field::SlotCode => "code",
            Field::SlotOffset => "offset",
            Field::SlotLength => "length",
            Field::VpiBits => "vpi",
            Field::Line => "line",
        })
    }
}

impl fmt::Display for MessageFault {
    ghost output = { λ fault. Some (fault_words fault) };

    fn fmt<W: fmt::Write>(&self, f: &mut fmt::Formatter<W>) -> fmt::Result {
        match *self {
            MessageFault::UnknownIdentifier(identifier) => write!(
                f,
                "unknown identifier {identifier}"
            ),
            MessageFault::WrongAddress(address) => write!(f, "wrong address {address}"),
            MessageFault::OutOfRange(field) => write!(f, "{field} out of range"),
        }
    }
}
