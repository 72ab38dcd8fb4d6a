// Twelve bytes read as a message from an ONU.
ghost use Rattle.std.specs.Prelude.{◌≡◌};
ghost use Rattle.upstream.specs.Message.{onu_of, source_of, key_of, acknowledge_of, number_of, password_of, big_key_of, vendor_of, rei_of, pst_of, upstream_of};

use crate::fault::{UpstreamFault, UpstreamField};
use crate::message::Upstream;
use field::bounded::{LineNumber, PonId, Sequence, VendorKind};
use field::bytes::{serial, ten_bytes, word};
use field::octets::Octets;

// The ONU that sent the message.
fn onu(source: u8) -> Result<PonId, UpstreamFault>
    ensures { result ≡ onu_of source }
{
    PonId::new(source).ok_or(UpstreamFault::WrongSource(source))
}

// The same, of an ONU that may have no PON_ID yet.
fn source(source: u8) -> Result<Option<PonId>, UpstreamFault>
    ensures { result ≡ source_of source }
{
    if source == 64 {
        return Ok(None);
    }
    let pon_id = onu(source)?;
    Ok(Some(pon_id))
}

fn new_churning_key(bytes: &[u8; 12]) -> Result<Upstream, UpstreamFault>
    ensures { result ≡ key_of bytes.now }
{
    let source = onu(bytes[0])?;
    let key = Octets::new([bytes[2], bytes[3], bytes[4]]);
    Ok(Upstream::NewChurningKey { source, key })
}

fn acknowledge(bytes: &[u8; 12]) -> Result<Upstream, UpstreamFault>
    ensures { result ≡ acknowledge_of bytes.now }
{
    let source = onu(bytes[0])?;
    let body = Octets::new([
        bytes[3], bytes[4], bytes[5], bytes[6], bytes[7], bytes[8], bytes[9], bytes[10], bytes[11],
    ]);
    Ok(Upstream::Acknowledge {
        source,
        message: bytes[2],
        body,
    })
}

fn serial_number_onu(bytes: &[u8; 12]) -> Result<Upstream, UpstreamFault>
    ensures { result ≡ number_of bytes.now }
{
    let source = source(bytes[0])?;
    if bytes[2] != 0 {
        return Err(UpstreamFault::OutOfRange(UpstreamField::ZeroByte));
    }
    Ok(Upstream::SerialNumberOnu {
        source,
        serial: serial(bytes),
    })
}

fn password(bytes: &[u8; 12]) -> Result<Upstream, UpstreamFault>
    ensures { result ≡ password_of bytes.now }
{
    let source = onu(bytes[0])?;
    let password = ten_bytes(bytes);
    Ok(Upstream::Password { source, password })
}

fn big_key(bytes: &[u8; 12]) -> Result<Upstream, UpstreamFault>
    ensures { result ≡ big_key_of bytes.now }
{
    let source = onu(bytes[0])?;
    let body = Octets::new([
        bytes[4], bytes[5], bytes[6], bytes[7], bytes[8], bytes[9], bytes[10], bytes[11],
    ]);
    Ok(Upstream::BigKey {
        source,
        index: bytes[2],
        fragment: bytes[3],
        body,
    })
}

fn vendor_specific(bytes: &[u8; 12]) -> Result<Upstream, UpstreamFault>
    ensures { result ≡ vendor_of bytes.now }
{
    let kind = VendorKind::new(bytes[1] % 8).ok_or(UpstreamFault::UnknownIdentifier(bytes[1]))?;
    let source = onu(bytes[0])?;
    Ok(Upstream::VendorSpecific {
        source,
        kind,
        body: ten_bytes(bytes),
    })
}

fn rei(bytes: &[u8; 12]) -> Result<Upstream, UpstreamFault>
    ensures { result ≡ rei_of bytes.now }
{
    let source = onu(bytes[0])?;
    let sequence = Sequence::new(bytes[6]).ok_or(UpstreamFault::OutOfRange(
        UpstreamField::SequenceBits,
    ))?;
    Ok(Upstream::Rei {
        source,
        errors: word(bytes),
        sequence,
    })
}

fn pst(bytes: &[u8; 12]) -> Result<Upstream, UpstreamFault>
    ensures { result ≡ pst_of bytes.now }
{
    let source = onu(bytes[0])?;
    let line = LineNumber::new(bytes[2]).ok_or(UpstreamFault::OutOfRange(UpstreamField::Line))?;
    Ok(Upstream::Pst {
        source,
        line,
        k1: bytes[3],
        k2: bytes[4],
    })
}

// The message, or the first reason why these twelve bytes are none.
pub(super) fn message(bytes: &[u8; 12]) -> Result<Upstream, UpstreamFault>
    ensures { result ≡ upstream_of bytes.now }
{
    match bytes[1] {
        0x00 => Ok(Upstream::NoMessage {
            source: onu(bytes[0])?,
        }),
        0x01 => new_churning_key(bytes),
        0x02 => acknowledge(bytes),
        0x03 => serial_number_onu(bytes),
        0x04 => password(bytes),
        0x05 => Ok(Upstream::PhysicalEquipmentError {
            source: onu(bytes[0])?,
        }),
        0x06 => big_key(bytes),
        0x78..=0x7f => vendor_specific(bytes),
        0x80 => rei(bytes),
        0x81 => Ok(Upstream::RInh {
            source: onu(bytes[0])?,
        }),
        0x82 => pst(bytes),
        0x83 => Ok(Upstream::MessageError {
            source: onu(bytes[0])?,
            message: bytes[2],
        }),
        unknown => Err(UpstreamFault::UnknownIdentifier(unknown)),
    }
}
