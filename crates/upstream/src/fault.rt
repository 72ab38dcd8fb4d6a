// Why twelve bytes from an ONU are no message.
ghost use Rattle.std.specs.Prelude.{Some};
ghost use Rattle.upstream.specs.Fault.{field_name, fault_words};

use std::fmt;

// A field whose value a message does not allow.
#[derive(Clone, Copy, PartialEq, Eq)]
pub enum UpstreamField {
    ZeroByte,
    SequenceBits,
    Line,
}

#[derive(Clone, Copy, PartialEq, Eq)]
pub enum UpstreamFault {
    // no message has this identifier
    UnknownIdentifier(u8),
    // no ONU has this number
    WrongSource(u8),
    // the first field that is out of range
    OutOfRange(UpstreamField),
}

// The field's name, as the readable form of a message has it.
impl fmt::Display for UpstreamField {
    ghost output = { λ field. Some (field_name field) };

    fn fmt<W: fmt::Write>(&self, f: &mut fmt::Formatter<W>) -> fmt::Result {
        f.write_str(match self {
            UpstreamField::ZeroByte => "zero",
            UpstreamField::SequenceBits => "sequence",
            UpstreamField::Line => "line",
        })
    }
}

impl fmt::Display for UpstreamFault {
    ghost output = { λ fault. Some (fault_words fault) };

    fn fmt<W: fmt::Write>(&self, f: &mut fmt::Formatter<W>) -> fmt::Result {
        match *self {
            UpstreamFault::UnknownIdentifier(identifier) => write!(
                f,
                "unknown identifier {identifier}"
            ),
            UpstreamFault::WrongSource(source) => write!(f, "wrong source {source}"),
            UpstreamFault::OutOfRange(field) => write!(f, "{field} out of range"),
        }
    }
}
