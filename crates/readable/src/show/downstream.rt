// The fields of a message to the ONUs.
ghost use Rattle.std.specs.Prelude.{Some};
ghost use Rattle.keyed.specs.Fields.{fields_text};
ghost use Rattle.readable.specs.Shown.{fields_of, access as access_fields, rx_part};

use keyed::hex::Digits;
use keyed::key::Key;
use keyed::value::{Keyed, Shown};
use message::downstream::{Access, Downstream, RxPart};
use std::fmt;

// The fields of a message, each after a blank.
#[derive(Clone, Copy)]
pub(crate) struct Fields<M>(pub(crate) M);

impl fmt::Display for Fields<RxPart> {
    ghost output = { λ part. Some (fields_text (rx_part part.0)) };

    fn fmt<W: fmt::Write>(&self, f: &mut fmt::Formatter<W>) -> fmt::Result {
        match self.0 {
            RxPart::First(pattern) => write!(
                f,
                "{}{}",
                Keyed(Key::Part, 0u8),
                Keyed(Key::Bytes, Shown(pattern))
            ),
            RxPart::Second(pattern) => write!(
                f,
                "{}{}",
                Keyed(Key::Part, 1u8),
                Keyed(Key::Bytes, Shown(pattern))
            ),
        }
    }
}

impl fmt::Display for Fields<Access> {
    ghost output = { λ access. Some (fields_text (access_fields access.0)) };

    fn fmt<W: fmt::Write>(&self, f: &mut fmt::Formatter<W>) -> fmt::Result {
        match self.0 {
            Access::Deny(of) => write!(
                f,
                "{}{}",
                Keyed(Key::Access, "deny"),
                Keyed(Key::Serial, Shown(of))
            ),
            Access::AllowAll => write!(f, "{}", Keyed(Key::Access, "allow_all")),
            Access::Allow(of) => write!(
                f,
                "{}{}",
                Keyed(Key::Access, "allow"),
                Keyed(Key::Serial, Shown(of))
            ),
        }
    }
}

impl fmt::Display for Fields<Downstream> {
    ghost output = { λ message. Some (fields_text (fields_of message.0)) };

    fn fmt<W: fmt::Write>(&self, f: &mut fmt::Formatter<W>) -> fmt::Result {
        match self.0 {
            Downstream::NoMessage | Downstream::PhysicalEquipmentError | Downstream::Popup => Ok(
                (),
            ),
            Downstream::UpstreamRxControl { part } => write!(f, "{}", Fields(part)),
            Downstream::UpstreamOverhead {
                guard,
                overhead,
                delay,
            } => write!(
                f,
                "{}{}{}",
                Keyed(Key::Guard, guard.value()),
                Keyed(Key::Overhead, Shown(overhead)),
                Keyed(Key::Delay, delay.value())
            ),
            Downstream::RangingTime { pon_id, delay } => write!(
                f,
                "{}{}",
                Keyed(Key::PonId, pon_id.value()),
                Keyed(Key::Delay, delay.value())
            ),
            Downstream::SerialNumberMask { bits, serial } => write!(
                f,
                "{}{}",
                Keyed(Key::Bits, bits.value()),
                Keyed(Key::Serial, Shown(serial))
            ),
            Downstream::AssignPonId { pon_id, serial } => write!(
                f,
                "{}{}",
                Keyed(Key::PonId, pon_id.value()),
                Keyed(Key::Serial, Shown(serial))
            ),
            Downstream::DeactivatePonId { to } => write!(f, "{}", Keyed(Key::PonId, Shown(to))),
            Downstream::DisableSerialNumber { access } => write!(f, "{}", Fields(access)),
            Downstream::NewChurningKeyRequest { pon_id } | Downstream::RequestPassword { pon_id } =>
                write!(f, "{}", Keyed(Key::PonId, pon_id.value())),
            Downstream::ChurningKeyUpdate { pon_id, count } => write!(
                f,
                "{}{}",
                Keyed(Key::PonId, pon_id.value()),
                Keyed(Key::Count, count.value())
            ),
            Downstream::GrantAllocation {
                pon_id,
                grant,
                ploam,
            } => write!(
                f,
                "{}{}{}{}{}",
                Keyed(Key::PonId, pon_id.value()),
                Keyed(Key::Data, grant.code.value()),
                Keyed(Key::DataActive, Shown(grant.active)),
                Keyed(Key::Ploam, ploam.code.value()),
                Keyed(Key::PloamActive, Shown(ploam.active))
            ),
            Downstream::DividedSlotGrant {
                pon_id,
                slot,
                part,
                service,
            } => write!(
                f,
                "{}{}{}{}{}{}",
                Keyed(Key::PonId, pon_id.value()),
                Keyed(Key::Active, Shown(slot.active)),
                Keyed(Key::Code, slot.code.value()),
                Keyed(Key::Offset, part.offset()),
                Keyed(Key::Length, part.length()),
                Keyed(Key::Service, service)
            ),
            Downstream::ConfigureVpVc {
                pon_id,
                active,
                header,
                mask,
            } => write!(
                f,
                "{}{}{}{}",
                Keyed(Key::PonId, pon_id.value()),
                Keyed(Key::Active, Shown(active)),
                Keyed(Key::Header, Shown(header)),
                Keyed(Key::Mask, Shown(mask))
            ),
            Downstream::ChurnedVp {
                pon_id,
                churned,
                vpi,
            } => write!(
                f,
                "{}{}{}",
                Keyed(Key::PonId, pon_id.value()),
                Keyed(Key::Churned, Shown(churned)),
                Keyed(Key::Vpi, vpi.value())
            ),
            Downstream::VendorSpecific { to, kind, body } => write!(
                f,
                "{}{}{}",
                Keyed(Key::PonId, Shown(to)),
                Keyed(Key::Kind, kind.value()),
                Keyed(Key::Bytes, Shown(body))
            ),
            Downstream::Pst { line, k1, k2 } => write!(
                f,
                "{}{}{}",
                Keyed(Key::Line, line.value()),
                Keyed(Key::K1, Digits(&[k1])),
                Keyed(Key::K2, Digits(&[k2]))
            ),
            Downstream::BerInterval { pon_id, frames } => write!(
                f,
                "{}{}",
                Keyed(Key::PonId, pon_id.value()),
                Keyed(Key::Frames, frames.value())
            ),
        }
    }
}
