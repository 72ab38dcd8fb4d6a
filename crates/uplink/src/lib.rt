// A message from an ONU as text, and why there is none.
#![tactic(auto)]

ghost use Rattle.std.specs.Prelude.{◌≡◌, Some, string_bytes, OnOk};
ghost use Rattle.keyed.specs.Fields.{fields_text};
ghost use Rattle.uplink.specs.Upstream.{upstream_name, upstream_fields, upstream_text, upstream_fault_text, with_upstream, with_upstream_fault, source_number as number_of_source};

use field::bounded::PonId;
use keyed::hex::Digits;
use keyed::key::Key;
use keyed::value::{Keyed, Shown};
use std::alloc::AllocError;
use std::fmt;
use upstream::fault::UpstreamFault;
use upstream::message::Upstream;

// Something of another crate that a line tells.
#[derive(Clone, Copy)]
struct Text<T>(T);

// The source of a message and its fields, each after a blank.
#[derive(Clone, Copy)]
struct Fields(Upstream);

fn name(message: &Upstream) -> &'static str
    ensures { result.now ≡ upstream_name message.now }
{
    match message {
        Upstream::NoMessage { .. } => "No_message",
        Upstream::NewChurningKey { .. } => "New_churning_key",
        Upstream::Acknowledge { .. } => "Acknowledge",
        Upstream::SerialNumberOnu { .. } => "Serial_number_ONU",
        Upstream::Password { .. } => "Password",
        Upstream::PhysicalEquipmentError { .. } => "Physical_equipment_error",
        Upstream::BigKey { .. } => "Big_key",
        Upstream::VendorSpecific { .. } => "Vendor_specific",
        Upstream::Rei { .. } => "REI",
        Upstream::RInh { .. } => "R_INH",
        Upstream::Pst { .. } => "PST",
        Upstream::MessageError { .. } => "Message_error",
    }
}

// An ONU without a PON_ID is 64.
fn source_number(source: Option<PonId>) -> u8
    ensures { result ≡ number_of_source source }
{
    source.map_or(64, |pon_id| pon_id.value())
}

impl fmt::Display for Fields {
    ghost output = { λ message. Some (fields_text (upstream_fields message.0)) };

    fn fmt<W: fmt::Write>(&self, f: &mut fmt::Formatter<W>) -> fmt::Result {
        match self.0 {
            Upstream::NoMessage { source }
            | Upstream::PhysicalEquipmentError { source }
            | Upstream::RInh { source } => write!(f, "{}", Keyed(Key::Source, source.value())),
            Upstream::NewChurningKey { source, key } => write!(
                f,
                "{}{}",
                Keyed(Key::Source, source.value()),
                Keyed(Key::ChurningKey, Shown(key))
            ),
            Upstream::Acknowledge {
                source,
                message,
                body,
            } => write!(
                f,
                "{}{}{}",
                Keyed(Key::Source, source.value()),
                Keyed(Key::Message, message),
                Keyed(Key::Bytes, Shown(body))
            ),
            Upstream::SerialNumberOnu { source, serial } => write!(
                f,
                "{}{}",
                Keyed(Key::Source, source_number(source)),
                Keyed(Key::Serial, Shown(serial))
            ),
            Upstream::Password { source, password } => write!(
                f,
                "{}{}",
                Keyed(Key::Source, source.value()),
                Keyed(Key::Password, Shown(password))
            ),
            Upstream::BigKey {
                source,
                index,
                fragment,
                body,
            } => write!(
                f,
                "{}{}{}{}",
                Keyed(Key::Source, source.value()),
                Keyed(Key::KeyIndex, index),
                Keyed(Key::Fragment, fragment),
                Keyed(Key::Bytes, Shown(body))
            ),
            Upstream::VendorSpecific { source, kind, body } => write!(
                f,
                "{}{}{}",
                Keyed(Key::Source, source.value()),
                Keyed(Key::Kind, kind.value()),
                Keyed(Key::Bytes, Shown(body))
            ),
            Upstream::Rei {
                source,
                errors,
                sequence,
            } => write!(
                f,
                "{}{}{}",
                Keyed(Key::Source, source.value()),
                Keyed(Key::Errors, errors.value()),
                Keyed(Key::Sequence, sequence.value())
            ),
            Upstream::Pst {
                source,
                line,
                k1,
                k2,
            } => write!(
                f,
                "{}{}{}{}",
                Keyed(Key::Source, source.value()),
                Keyed(Key::Line, line.value()),
                Keyed(Key::K1, Digits(&[k1])),
                Keyed(Key::K2, Digits(&[k2]))
            ),
            Upstream::MessageError { source, message } => write!(
                f,
                "{}{}",
                Keyed(Key::Source, source.value()),
                Keyed(Key::Message, message)
            ),
        }
    }
}

impl fmt::Display for Text<Upstream> {
    ghost output = { λ message. Some (upstream_text message.0) };

    fn fmt<W: fmt::Write>(&self, f: &mut fmt::Formatter<W>) -> fmt::Result {
        write!(f, "message={}{}", name(&self.0), Fields(self.0))
    }
}

// Appends `message=NAME`, the source and the fields.
pub fn message(out: &mut String, message: &Upstream) -> Result<(), AllocError>
    ensures { OnOk result (string_bytes out.new ≡ with_upstream (string_bytes out.old) message.now) }
{
    write!(out, "{}", Text(*message))
}

impl fmt::Display for Text<UpstreamFault> {
    ghost output = { λ fault. Some (upstream_fault_text fault.0) };

    fn fmt<W: fmt::Write>(&self, f: &mut fmt::Formatter<W>) -> fmt::Result {
        match self.0 {
            UpstreamFault::UnknownIdentifier(identifier) => write!(f, "identifier={identifier}"),
            UpstreamFault::WrongSource(source) => write!(f, "source={source}"),
            UpstreamFault::OutOfRange(field) => write!(f, "field={}", Key::from(field)),
        }
    }
}

// Appends why there is no message: `identifier=17`, `source=65` or `field=zero`.
pub fn fault(out: &mut String, fault: UpstreamFault) -> Result<(), AllocError>
    ensures { OnOk result (string_bytes out.new ≡ with_upstream_fault (string_bytes out.old) fault) }
{
    write!(out, "{}", Text(fault))
}
