// Numbers in the bytes of a message, the most significant byte first.
ghost use Rattle.std.specs.Prelude.{◌≡◌};
ghost use Rattle.field.specs.Bytes.{serial_of, serial_bytes, word_of, plain_bytes, with_ten_bytes, ten_of};

use crate::number::{Count, SerialNumber};
use crate::octets::Octets;

// The serial number in bytes 3 to 10.
pub fn serial(bytes: &[u8; 12]) -> SerialNumber
    ensures { result ≡ serial_of bytes.now }
{
    SerialNumber::saturating(u64::from_be_bytes([
        bytes[3], bytes[4], bytes[5], bytes[6], bytes[7], bytes[8], bytes[9], bytes[10],
    ]))
}

// Twelve bytes with a serial number in bytes 3 to 10.
pub fn with_serial(address: u8, identifier: u8, first: u8, number: SerialNumber) -> [u8; 12]
    ensures { result ≡ serial_bytes address identifier first number }
{
    let s = number.value().to_be_bytes();
    [
        address, identifier, first, s[0], s[1], s[2], s[3], s[4], s[5], s[6], s[7], 0,
    ]
}

// The count in bytes 2 to 5.
pub fn word(bytes: &[u8; 12]) -> Count
    ensures { result ≡ word_of bytes.now }
{
    let count = u32::from_be_bytes([bytes[2], bytes[3], bytes[4], bytes[5]]);
    Count::saturating(u64::from(count))
}

// A message without fields, or with up to four.
pub fn plain(address: u8, identifier: u8, fields: [u8; 4]) -> [u8; 12]
    ensures { result ≡ plain_bytes address identifier fields }
{
    [
        address, identifier, fields[0], fields[1], fields[2], fields[3], 0, 0, 0, 0, 0, 0,
    ]
}

// A message whose ten bytes of fields are one run.
pub fn with_ten(address: u8, identifier: u8, body: Octets<10>) -> [u8; 12]
    ensures { result ≡ with_ten_bytes address identifier body }
{
    let b = body.bytes();
    [
        address, identifier, b[0], b[1], b[2], b[3], b[4], b[5], b[6], b[7], b[8], b[9],
    ]
}

// Bytes 2 to 11, all that follows the identifier.
pub fn ten_bytes(bytes: &[u8; 12]) -> Octets<10>
    ensures { result ≡ ten_of bytes.now }
{
    Octets::new([
        bytes[2], bytes[3], bytes[4], bytes[5], bytes[6], bytes[7], bytes[8], bytes[9], bytes[10],
        bytes[11],
    ])
}
