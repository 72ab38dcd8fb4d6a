// The twelve bytes of a message to the ONUs; unspecified bytes are 0.
ghost use Rattle.std.specs.Prelude.{◌≡◌};
ghost use Rattle.message.specs.Downstream.{address_byte, access_bytes, rx_bytes, overhead_bytes, slot_bytes, path_bytes, vendor_bytes, delay_bytes, bytes_of};

use crate::downstream::{Access, Address, Allocation, Downstream, RxPart};
use field::bounded::{Guard, PonId, VendorKind};
use field::bytes::{plain, with_serial, with_ten};
use field::delay::Delay;
use field::minislot::Minislot;
use field::octets::Octets;

const ALL: u8 = 64;

impl Address {
    fn byte(self) -> u8
        ensures { result ≡ address_byte self }
    {
        match self {
            Address::One(pon_id) => pon_id.value(),
            Address::All => ALL,
        }
    }
}

fn access(access: Access) -> [u8; 12]
    ensures { result ≡ access_bytes access }
{
    match access {
        Access::Deny(serial) => with_serial(ALL, 0x07, 0xff, serial),
        Access::AllowAll => plain(ALL, 0x07, [0x0f, 0, 0, 0]),
        Access::Allow(serial) => with_serial(ALL, 0x07, 0x00, serial),
    }
}

fn rx_control(part: RxPart) -> [u8; 12]
    ensures { result ≡ rx_bytes part }
{
    match part {
        RxPart::First(octets) => {
            let b = octets.bytes();
            [
                ALL, 0x01, 0, b[0], b[1], b[2], b[3], b[4], b[5], b[6], b[7], b[8],
            ]
        }
        RxPart::Second(octets) => {
            let b = octets.bytes();
            [ALL, 0x01, 1, b[0], b[1], b[2], b[3], b[4], b[5], b[6], 0, 0]
        }
    }
}

// A pre-assigned delay of 0 is told by the flag alone.
fn upstream_overhead(guard: Guard, overhead: Octets<3>, delay: Delay) -> [u8; 12]
    ensures { result ≡ overhead_bytes guard overhead delay }
{
    let b = overhead.bytes();
    let d = delay.value().to_be_bytes();
    let given = u8::from(delay.value() != 0);
    [
        ALL,
        0x02,
        guard.value(),
        b[0],
        b[1],
        b[2],
        0,
        0,
        given,
        d[5],
        d[6],
        d[7],
    ]
}

fn ranging_time(pon_id: PonId, delay: Delay) -> [u8; 12]
    ensures { result ≡ delay_bytes pon_id delay }
{
    let d = delay.value().to_be_bytes();
    plain(pon_id.value(), 0x03, [d[5], d[6], d[7], 0])
}

fn divided_slot_grant(pon_id: PonId, slot: Allocation, part: Minislot, service: u8) -> [u8; 12]
    ensures { result ≡ slot_bytes pon_id slot part service }
{
    let active = u8::from(slot.active);
    [
        pon_id.value(),
        0x0b,
        active,
        slot.code.value(),
        part.length(),
        part.offset(),
        service,
        0,
        0,
        0,
        0,
        0,
    ]
}

fn configure_vp_vc(pon_id: PonId, active: bool, header: Octets<4>, mask: Octets<4>) -> [u8; 12]
    ensures { result ≡ path_bytes pon_id active header mask }
{
    let h = header.bytes();
    let m = mask.bytes();
    [
        pon_id.value(),
        0x0c,
        u8::from(active),
        h[0],
        h[1],
        h[2],
        h[3],
        m[0],
        m[1],
        m[2],
        m[3],
        0,
    ]
}

fn vendor_specific(to: Address, kind: VendorKind, body: Octets<10>) -> [u8; 12]
    ensures { result ≡ vendor_bytes to kind body }
{
    with_ten(to.byte(), 0x78 + kind.value(), body)
}

pub(super) fn bytes(message: Downstream) -> [u8; 12]
    ensures { result ≡ bytes_of message }
{
    match message {
        Downstream::NoMessage => plain(ALL, 0x00, [0; 4]),
        Downstream::UpstreamRxControl { part } => rx_control(part),
        Downstream::UpstreamOverhead {
            guard,
            overhead,
            delay,
        } => upstream_overhead(guard, overhead, delay),
        Downstream::RangingTime { pon_id, delay } => ranging_time(pon_id, delay),
        Downstream::SerialNumberMask { bits, serial } => with_serial(
            ALL,
            0x04,
            bits.value(),
            serial,
        ),
        Downstream::AssignPonId { pon_id, serial } => with_serial(
            ALL,
            0x05,
            pon_id.value(),
            serial,
        ),
        Downstream::DeactivatePonId { to } => plain(to.byte(), 0x06, [0; 4]),
        Downstream::DisableSerialNumber { access: allowed } => access(allowed),
        Downstream::NewChurningKeyRequest { pon_id } => plain(pon_id.value(), 0x08, [0; 4]),
        Downstream::ChurningKeyUpdate { pon_id, count } => plain(
            pon_id.value(),
            0x09,
            [count.value(), 0, 0, 0],
        ),
        Downstream::GrantAllocation {
            pon_id,
            grant,
            ploam,
        } => {
            let fields = [
                grant.code.value(),
                u8::from(grant.active),
                ploam.code.value(),
                u8::from(ploam.active),
            ];
            plain(pon_id.value(), 0x0a, fields)
        }
        Downstream::DividedSlotGrant {
            pon_id,
            slot,
            part,
            service,
        } => divided_slot_grant(pon_id, slot, part, service),
        Downstream::ConfigureVpVc {
            pon_id,
            active,
            header,
            mask,
        } => configure_vp_vc(pon_id, active, header, mask),
        Downstream::PhysicalEquipmentError => plain(ALL, 0x0d, [0; 4]),
        Downstream::RequestPassword { pon_id } => plain(pon_id.value(), 0x0e, [0; 4]),
        Downstream::ChurnedVp {
            pon_id,
            churned,
            vpi,
        } => {
            let path = vpi.value();
            plain(
                pon_id.value(),
                0x0f,
                [
                    u8::from(churned),
                    (path / 16) as u8,
                    (path % 16 * 16) as u8,
                    0,
                ],
            )
        }
        Downstream::Popup => plain(ALL, 0x10, [0; 4]),
        Downstream::VendorSpecific { to, kind, body } => vendor_specific(to, kind, body),
        Downstream::Pst { line, k1, k2 } => plain(ALL, 0x80, [line.value(), k1, k2, 0]),
        Downstream::BerInterval { pon_id, frames } => {
            let f = frames.value().to_be_bytes();
            plain(pon_id.value(), 0x81, [f[4], f[5], f[6], f[7]])
        }
    }
}
