// What a receiver says of one slot.
ghost use Rattle.std.specs.Prelude.{◌≡◌};
ghost use Rattle.report.specs.Record.{light_of, light_byte, record_of, record_bytes};

use crate::offset::Offset;
use field::octets::Octets;

#[derive(Clone, Copy, PartialEq, Eq)]
pub enum Light {
    // no light
    Dark = 0,
    // light that is no cell
    Broken = 1,
    Ploam = 2,
    Data = 3,
}

#[derive(Clone, Copy, PartialEq, Eq)]
pub struct Record {
    pub light: Light,
    // how many parity bits differed
    pub parity: u8,
    pub offset: Offset,
    pub message: Octets<12>,
}

impl Light {
    // An unknown kind, or more than eight differing parity bits, is a broken cell.
    pub fn read(kind: u8, parity: u8) -> Light
        ensures { result ≡ light_of kind parity }
    {
        if parity > 8 {
            return Light::Broken;
        }
        match kind {
            0 => Light::Dark,
            2 => Light::Ploam,
            3 => Light::Data,
            _ => Light::Broken,
        }
    }
}

impl From<Light> for u8 {
    ghost from_gives = { λ light byte. byte ≡ light_byte light };

    fn from(light: Light) -> u8 {
        light as u8
    }
}

impl From<&[u8; 18]> for Record {
    ghost from_gives = { λ bytes r. r ≡ record_of bytes.now };

    #[tactic(auto, using(crate::proofs::Parts::message_picked))]
    fn from(bytes: &[u8; 18]) -> Record {
        let [kind, parity, o0, o1, o2, o3, ..] = *bytes;
        Record {
            light: Light::read(kind, parity),
            parity,
            offset: Offset::from(u32::from_be_bytes([o0, o1, o2, o3])),
            message: Octets::new(*bytes.last_chunk().unwrap()),
        }
    }
}

impl From<Record> for [u8; 18] {
    ghost from_gives = { λ r bytes. bytes ≡ record_bytes r };

    fn from(record: Record) -> [u8; 18] {
        let offset = u32::from(record.offset).to_be_bytes();
        let mut bytes = [0; 18];
        bytes[0] = record.light.into();
        bytes[1] = record.parity;
        bytes[2..6].copy_from_slice(&offset);
        bytes[6..].copy_from_slice(&record.message.bytes());
        bytes
    }
}
