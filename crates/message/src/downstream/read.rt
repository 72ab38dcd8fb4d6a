// Twelve bytes read as a message to the ONUs.
ghost use Rattle.std.specs.Prelude.{◌≡◌, ◌+◌, ◌*◌};
ghost use Rattle.message.specs.Downstream.{everybody_of, directed_of, address_of, flag_of, delay_field, allocation_of, downstream_of, rx_control_of, overhead_of, ranging_of, mask_of, assign_of, disable_of, update_of, grants_of, slot_of, path_of, churned_of, vendor_of, pst_of, broadcast_of};

use crate::downstream::{Access, Address, Allocation, Downstream, RxPart};
use crate::fault::{Field, MessageFault};
use field::bounded::{GrantCode, Guard, KeyCount, LineNumber, MaskLength, PonId, VendorKind};
use field::bytes::{serial, ten_bytes, word};
use field::delay::Delay;
use field::minislot::Minislot;
use field::number::Vpi;
use field::octets::Octets;

// A message to all ONUs.
fn everybody(address: u8) -> Result<(), MessageFault>
    ensures { result ≡ everybody_of address }
{
    if address == 64 {
        Ok(())
    } else {
        Err(MessageFault::WrongAddress(address))
    }
}

// A message to one ONU.
fn directed(address: u8) -> Result<PonId, MessageFault>
    ensures { result ≡ directed_of address }
{
    PonId::new(address).ok_or(MessageFault::WrongAddress(address))
}

// A message to one ONU or to all.
fn addressed(address: u8) -> Result<Address, MessageFault>
    ensures { result ≡ address_of address }
{
    if address == 64 {
        return Ok(Address::All);
    }
    let pon_id = directed(address)?;
    Ok(Address::One(pon_id))
}

// A byte that is 0 or 1.
fn flag(byte: u8, field: Field) -> Result<bool, MessageFault>
    ensures { result ≡ flag_of byte field }
{
    match byte {
        0 => Ok(false),
        1 => Ok(true),
        _ => Err(MessageFault::OutOfRange(field)),
    }
}

// A delay of three bytes.
fn delay(high: u8, middle: u8, low: u8) -> Result<Delay, MessageFault>
    ensures { result ≡ delay_field (high * 65536 + middle * 256 + low) }
{
    let bits = u32::from_be_bytes([0, high, middle, low]);
    Delay::new(u64::from(bits)).ok_or(MessageFault::OutOfRange(Field::DelayBits))
}

// A code with its flag.
fn allocation(
    code: u8,
    active: u8,
    wrong_code: Field,
    wrong_flag: Field,
) -> Result<Allocation, MessageFault>
    ensures { result ≡ allocation_of code active wrong_code wrong_flag }
{
    let code = GrantCode::new(code).ok_or(MessageFault::OutOfRange(wrong_code))?;
    let active = flag(active, wrong_flag)?;
    Ok(Allocation { code, active })
}

fn rx_control(bytes: &[u8; 12]) -> Result<Downstream, MessageFault>
    ensures { result ≡ rx_control_of bytes.now }
{
    everybody(bytes[0])?;
    let part = match bytes[2] {
        0 => RxPart::First(Octets::new([
            bytes[3], bytes[4], bytes[5], bytes[6], bytes[7], bytes[8], bytes[9], bytes[10],
            bytes[11],
        ])),
        1 => RxPart::Second(Octets::new([
            bytes[3], bytes[4], bytes[5], bytes[6], bytes[7], bytes[8], bytes[9],
        ])),
        _ => return Err(MessageFault::OutOfRange(Field::Part)),
    };
    Ok(Downstream::UpstreamRxControl { part })
}

fn upstream_overhead(bytes: &[u8; 12]) -> Result<Downstream, MessageFault>
    ensures { result ≡ overhead_of bytes.now }
{
    everybody(bytes[0])?;
    let guard = Guard::new(bytes[2]).ok_or(MessageFault::OutOfRange(Field::GuardBits))?;
    let overhead = Octets::new([bytes[3], bytes[4], bytes[5]]);
    let delay = if bytes[8] % 2 == 0 {
        delay(0, 0, 0)?
    } else {
        delay(bytes[9], bytes[10], bytes[11])?
    };
    Ok(Downstream::UpstreamOverhead {
        guard,
        overhead,
        delay,
    })
}

fn ranging_time(bytes: &[u8; 12]) -> Result<Downstream, MessageFault>
    ensures { result ≡ ranging_of bytes.now }
{
    let pon_id = directed(bytes[0])?;
    let delay = delay(bytes[2], bytes[3], bytes[4])?;
    Ok(Downstream::RangingTime { pon_id, delay })
}

fn serial_number_mask(bytes: &[u8; 12]) -> Result<Downstream, MessageFault>
    ensures { result ≡ mask_of bytes.now }
{
    everybody(bytes[0])?;
    let bits = MaskLength::new(bytes[2]).ok_or(MessageFault::OutOfRange(Field::MaskBits))?;
    Ok(Downstream::SerialNumberMask {
        bits,
        serial: serial(bytes),
    })
}

fn assign_pon_id(bytes: &[u8; 12]) -> Result<Downstream, MessageFault>
    ensures { result ≡ assign_of bytes.now }
{
    everybody(bytes[0])?;
    let pon_id = PonId::new(bytes[2]).ok_or(MessageFault::OutOfRange(Field::AssignedId))?;
    Ok(Downstream::AssignPonId {
        pon_id,
        serial: serial(bytes),
    })
}

fn disable_serial_number(bytes: &[u8; 12]) -> Result<Downstream, MessageFault>
    ensures { result ≡ disable_of bytes.now }
{
    everybody(bytes[0])?;
    let access = match bytes[2] {
        0xff => Access::Deny(serial(bytes)),
        0x0f => Access::AllowAll,
        0x00 => Access::Allow(serial(bytes)),
        _ => return Err(MessageFault::OutOfRange(Field::AccessCode)),
    };
    Ok(Downstream::DisableSerialNumber { access })
}

fn churning_key_update(bytes: &[u8; 12]) -> Result<Downstream, MessageFault>
    ensures { result ≡ update_of bytes.now }
{
    let pon_id = directed(bytes[0])?;
    let count = KeyCount::new(bytes[2]).ok_or(MessageFault::OutOfRange(Field::UpdateCount))?;
    Ok(Downstream::ChurningKeyUpdate { pon_id, count })
}

fn grant_allocation(bytes: &[u8; 12]) -> Result<Downstream, MessageFault>
    ensures { result ≡ grants_of bytes.now }
{
    let pon_id = directed(bytes[0])?;
    let grant = allocation(bytes[2], bytes[3], Field::DataCode, Field::DataFlag)?;
    let ploam = allocation(bytes[4], bytes[5], Field::PloamCode, Field::PloamFlag)?;
    Ok(Downstream::GrantAllocation {
        pon_id,
        grant,
        ploam,
    })
}

fn divided_slot_grant(bytes: &[u8; 12]) -> Result<Downstream, MessageFault>
    ensures { result ≡ slot_of bytes.now }
{
    let pon_id = directed(bytes[0])?;
    let active = flag(bytes[2], Field::ActiveFlag)?;
    let code = GrantCode::new(bytes[3]).ok_or(MessageFault::OutOfRange(Field::SlotCode))?;
    if bytes[5] > 52 {
        return Err(MessageFault::OutOfRange(Field::SlotOffset));
    }
    let part = Minislot::new(bytes[5], bytes[4]).ok_or(MessageFault::OutOfRange(
        Field::SlotLength,
    ))?;
    let slot = Allocation { code, active };
    Ok(Downstream::DividedSlotGrant {
        pon_id,
        slot,
        part,
        service: bytes[6],
    })
}

fn configure_vp_vc(bytes: &[u8; 12]) -> Result<Downstream, MessageFault>
    ensures { result ≡ path_of bytes.now }
{
    let pon_id = directed(bytes[0])?;
    let active = flag(bytes[2], Field::ActiveFlag)?;
    let header = Octets::new([bytes[3], bytes[4], bytes[5], bytes[6]]);
    let mask = Octets::new([bytes[7], bytes[8], bytes[9], bytes[10]]);
    Ok(Downstream::ConfigureVpVc {
        pon_id,
        active,
        header,
        mask,
    })
}

fn churned_vp(bytes: &[u8; 12]) -> Result<Downstream, MessageFault>
    ensures { result ≡ churned_of bytes.now }
{
    let pon_id = directed(bytes[0])?;
    let churned = bytes[2] % 2 == 1;
    if bytes[4] % 16 != 0 {
        return Err(MessageFault::OutOfRange(Field::VpiBits));
    }
    let vpi = Vpi::saturating(u64::from(bytes[3]) * 16 + u64::from(bytes[4] / 16));
    Ok(Downstream::ChurnedVp {
        pon_id,
        churned,
        vpi,
    })
}

fn vendor_specific(bytes: &[u8; 12]) -> Result<Downstream, MessageFault>
    ensures { result ≡ vendor_of bytes.now }
{
    let kind = VendorKind::new(bytes[1] % 8).ok_or(MessageFault::UnknownIdentifier(bytes[1]))?;
    let to = addressed(bytes[0])?;
    let body = ten_bytes(bytes);
    Ok(Downstream::VendorSpecific { to, kind, body })
}

fn pst(bytes: &[u8; 12]) -> Result<Downstream, MessageFault>
    ensures { result ≡ pst_of bytes.now }
{
    everybody(bytes[0])?;
    let line = LineNumber::new(bytes[2]).ok_or(MessageFault::OutOfRange(Field::Line))?;
    Ok(Downstream::Pst {
        line,
        k1: bytes[3],
        k2: bytes[4],
    })
}

// A message to all ONUs that has no fields.
fn plain_broadcast(address: u8, message: Downstream) -> Result<Downstream, MessageFault>
    ensures { result ≡ broadcast_of address message }
{
    everybody(address)?;
    Ok(message)
}

// The message, or the first reason why these twelve bytes are none.
pub(super) fn message(bytes: &[u8; 12]) -> Result<Downstream, MessageFault>
    ensures { result ≡ downstream_of bytes.now }
{
    match bytes[1] {
        0x00 => plain_broadcast(bytes[0], Downstream::NoMessage),
        0x01 => rx_control(bytes),
        0x02 => upstream_overhead(bytes),
        0x03 => ranging_time(bytes),
        0x04 => serial_number_mask(bytes),
        0x05 => assign_pon_id(bytes),
        0x06 => Ok(Downstream::DeactivatePonId {
            to: addressed(bytes[0])?,
        }),
        0x07 => disable_serial_number(bytes),
        0x08 => Ok(Downstream::NewChurningKeyRequest {
            pon_id: directed(bytes[0])?,
        }),
        0x09 => churning_key_update(bytes),
        0x0a => grant_allocation(bytes),
        0x0b => divided_slot_grant(bytes),
        0x0c => configure_vp_vc(bytes),
        0x0d => plain_broadcast(bytes[0], Downstream::PhysicalEquipmentError),
        0x0e => Ok(Downstream::RequestPassword {
            pon_id: directed(bytes[0])?,
        }),
        0x0f => churned_vp(bytes),
        0x10 => plain_broadcast(bytes[0], Downstream::Popup),
        0x78..=0x7f => vendor_specific(bytes),
        0x80 => pst(bytes),
        0x81 => Ok(Downstream::BerInterval {
            pon_id: directed(bytes[0])?,
            frames: word(bytes),
        }),
        unknown => Err(MessageFault::UnknownIdentifier(unknown)),
    }
}
