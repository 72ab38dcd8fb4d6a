// The messages that an ONU sends: a case for each of the twelve kinds.
use field::bounded::{LineNumber, PonId, Sequence, VendorKind};
use field::number::{Count, SerialNumber};
use field::octets::Octets;

mod coded;
mod read;
mod write;

#[derive(Clone, Copy)]
pub enum Upstream {
    NoMessage {
        source: PonId,
    },
    NewChurningKey {
        source: PonId,
        key: Octets<3>,
    },
    Acknowledge {
        source: PonId,
        message: u8,
        body: Octets<9>,
    },
    // before an ONU has a PON_ID it has no source to name
    SerialNumberOnu {
        source: Option<PonId>,
        serial: SerialNumber,
    },
    Password {
        source: PonId,
        password: Octets<10>,
    },
    PhysicalEquipmentError {
        source: PonId,
    },
    BigKey {
        source: PonId,
        index: u8,
        fragment: u8,
        body: Octets<8>,
    },
    VendorSpecific {
        source: PonId,
        kind: VendorKind,
        body: Octets<10>,
    },
    Rei {
        source: PonId,
        errors: Count,
        sequence: Sequence,
    },
    RInh {
        source: PonId,
    },
    Pst {
        source: PonId,
        line: LineNumber,
        k1: u8,
        k2: u8,
    },
    MessageError {
        source: PonId,
        message: u8,
    },
}
