// The keys that stand before the fields of a line, as in `delay=12345`.
ghost use Rattle.std.specs.Prelude.{◌≡◌, Some};
ghost use Rattle.keyed.specs.Names.{key_name, key_of, upstream_key};

use message::fault::Field;
use std::fmt;
use upstream::fault::UpstreamField;

#[derive(Clone, Copy, Debug, PartialEq, Eq)]
pub enum Key {
    Bit,
    Grants,
    Message,
    PonId,
    Part,
    Bytes,
    Guard,
    Overhead,
    Delay,
    Bits,
    Serial,
    Access,
    Count,
    Data,
    DataActive,
    Ploam,
    PloamActive,
    Active,
    Code,
    Offset,
    Length,
    Service,
    Header,
    Mask,
    Churned,
    Vpi,
    Kind,
    Line,
    K1,
    K2,
    Frames,
    Source,
    ChurningKey,
    Password,
    KeyIndex,
    Fragment,
    Errors,
    Sequence,
    Zero,
}

impl Key {
    pub fn name(self) -> &'static str
        ensures { result.now ≡ key_name self }
    {
        match self {
            Key::Bit => "bit",
            Key::Grants => "grants",
            Key::Message => "message",
            Key::PonId => "pon_id",
            Key::Part => "part",
            Key::Bytes => "bytes",
            Key::Guard => "guard",
            Key::Overhead => "overhead",
            Key::Delay => "delay",
            Key::Bits => "bits",
            Key::Serial => "serial",
            Key::Access => "access",
            Key::Count => "count",
            Key::Data => "data",
            Key::DataActive => "data_active",
            Key::Ploam => "ploam",
            Key::PloamActive => "ploam_active",
            Key::Active => "active",
            Key::Code => "code",
            Key::Offset => "offset",
            Key::Length => "length",
            Key::Service => "service",
            Key::Header => "header",
            Key::Mask => "mask",
            Key::Churned => "churned",
            Key::Vpi => "vpi",
            Key::Kind => "kind",
            Key::Line => "line",
            Key::K1 => "k1",
            Key::K2 => "k2",
            Key::Frames => "frames",
            Key::Source => "source",
            Key::ChurningKey => "key",
            Key::Password => "password",
            Key::KeyIndex => "key_index",
            Key::Fragment => "fragment",
            Key::Errors => "errors",
            Key::Sequence => "sequence",
            Key::Zero => "zero",
        }
    }
}

impl fmt::Display for Key {
    ghost output = { λ key. Some (key_name key) };

    fn fmt<W: fmt::Write>(&self, f: &mut fmt::Formatter<W>) -> fmt::Result {
        f.write_str(self.name())
    }
}

// The key of a field of a message to an ONU that can be out of range.
impl From<Field> for Key {
    ghost from_gives = { λ field key. key ≡ key_of field };

    fn from(field: Field) -> Key {
        match field {
            Field::Part => Key::Part,
            Field::GuardBits => Key::Guard,
            Field::DelayBits => Key::Delay,
            Field::MaskBits => Key::Bits,
            Field::AssignedId => Key::PonId,
            Field::AccessCode => Key::Access,
            Field::UpdateCount => Key::Count,
            Field::DataCode => Key::Data,
            Field::DataFlag => Key::DataActive,
            Field::PloamCode => Key::Ploam,
            Field::PloamFlag => Key::PloamActive,
            Field::ActiveFlag => Key::Active,
            Field::SlotCode => Key::Code,
            Field::SlotOffset => Key::Offset,
            Field::SlotLength => Key::Length,
            Field::VpiBits => Key::Vpi,
            Field::Line => Key::Line,
        }
    }
}

// The key of a field of a message from an ONU that can be out of range.
impl From<UpstreamField> for Key {
    ghost from_gives = { λ field key. key ≡ upstream_key field };

    fn from(field: UpstreamField) -> Key {
        match field {
            UpstreamField::ZeroByte => Key::Zero,
            UpstreamField::SequenceBits => Key::Sequence,
            UpstreamField::Line => Key::Line,
        }
    }
}
