// The twelve bytes of a message from an ONU; unspecified bytes are 0.
ghost use Rattle.std.specs.Prelude.{◌≡◌};
ghost use Rattle.upstream.specs.Message.{source_byte, acknowledge_bytes, big_key_bytes, rei_bytes, bytes_of};

use crate::message::Upstream;
use field::bounded::{PonId, Sequence};
use field::bytes::{plain, with_serial, with_ten};
use field::number::Count;
use field::octets::Octets;

fn source_byte(source: Option<PonId>) -> u8
    ensures { result ≡ source_byte source }
{
    source.map_or(64, |pon_id| pon_id.value())
}

fn acknowledge(source: PonId, message: u8, body: Octets<9>) -> [u8; 12]
    ensures { result ≡ acknowledge_bytes source message body }
{
    let b = body.bytes();
    [
        source.value(),
        0x02,
        message,
        b[0],
        b[1],
        b[2],
        b[3],
        b[4],
        b[5],
        b[6],
        b[7],
        b[8],
    ]
}

fn big_key(source: PonId, index: u8, fragment: u8, body: Octets<8>) -> [u8; 12]
    ensures { result ≡ big_key_bytes source index fragment body }
{
    let b = body.bytes();
    [
        source.value(),
        0x06,
        index,
        fragment,
        b[0],
        b[1],
        b[2],
        b[3],
        b[4],
        b[5],
        b[6],
        b[7],
    ]
}

fn rei(source: PonId, errors: Count, sequence: Sequence) -> [u8; 12]
    ensures { result ≡ rei_bytes source errors sequence }
{
    let e = errors.value().to_be_bytes();
    [
        source.value(),
        0x80,
        e[4],
        e[5],
        e[6],
        e[7],
        sequence.value(),
        0,
        0,
        0,
        0,
        0,
    ]
}

pub(super) fn bytes(message: Upstream) -> [u8; 12]
    ensures { result ≡ bytes_of message }
{
    match message {
        Upstream::NoMessage { source } => plain(source.value(), 0x00, [0; 4]),
        Upstream::NewChurningKey { source, key } => {
            let k = key.bytes();
            plain(source.value(), 0x01, [k[0], k[1], k[2], 0])
        }
        Upstream::Acknowledge {
            source,
            message,
            body,
        } => acknowledge(source, message, body),
        Upstream::SerialNumberOnu { source, serial } => with_serial(
            source_byte(source),
            0x03,
            0,
            serial,
        ),
        Upstream::Password { source, password } => with_ten(source.value(), 0x04, password),
        Upstream::PhysicalEquipmentError { source } => plain(source.value(), 0x05, [0; 4]),
        Upstream::BigKey {
            source,
            index,
            fragment,
            body,
        } => big_key(source, index, fragment, body),
        Upstream::VendorSpecific { source, kind, body } => with_ten(
            source.value(),
            0x78 + kind.value(),
            body,
        ),
        Upstream::Rei {
            source,
            errors,
            sequence,
        } => rei(source, errors, sequence),
        Upstream::RInh { source } => plain(source.value(), 0x81, [0; 4]),
        Upstream::Pst {
            source,
            line,
            k1,
            k2,
        } => plain(source.value(), 0x82, [line.value(), k1, k2, 0]),
        Upstream::MessageError { source, message } => plain(
            source.value(),
            0x83,
            [message, 0, 0, 0],
        ),
    }
}
