// The messages that the head sends: a case for each of the twenty kinds.
use field::bounded::{GrantCode, Guard, KeyCount, LineNumber, MaskLength, PonId, VendorKind};
use field::delay::Delay;
use field::minislot::Minislot;
use field::number::{Count, SerialNumber, Vpi};
use field::octets::Octets;

mod coded;
pub mod laws;
mod read;
mod write;

// One ONU or all.
#[derive(Clone, Copy)]
pub enum Address {
    One(PonId),
    All,
}

// The receiver's pattern comes in two parts.
#[derive(Clone, Copy)]
pub enum RxPart {
    First(Octets<9>),
    Second(Octets<7>),
}

// Who may take part in ranging.
#[derive(Clone, Copy)]
pub enum Access {
    Deny(SerialNumber),
    AllowAll,
    Allow(SerialNumber),
}

// A grant code and whether the ONU is to answer it.
#[derive(Clone, Copy)]
pub struct Allocation {
    pub code: GrantCode,
    pub active: bool,
}

#[derive(Clone, Copy)]
pub enum Downstream {
    NoMessage,
    UpstreamRxControl {
        part: RxPart,
    },
    UpstreamOverhead {
        guard: Guard,
        overhead: Octets<3>,
        delay: Delay,
    },
    RangingTime {
        pon_id: PonId,
        delay: Delay,
    },
    SerialNumberMask {
        bits: MaskLength,
        serial: SerialNumber,
    },
    AssignPonId {
        pon_id: PonId,
        serial: SerialNumber,
    },
    DeactivatePonId {
        to: Address,
    },
    DisableSerialNumber {
        access: Access,
    },
    NewChurningKeyRequest {
        pon_id: PonId,
    },
    ChurningKeyUpdate {
        pon_id: PonId,
        count: KeyCount,
    },
    GrantAllocation {
        pon_id: PonId,
        grant: Allocation,
        ploam: Allocation,
    },
    DividedSlotGrant {
        pon_id: PonId,
        slot: Allocation,
        part: Minislot,
        service: u8,
    },
    ConfigureVpVc {
        pon_id: PonId,
        active: bool,
        header: Octets<4>,
        mask: Octets<4>,
    },
    PhysicalEquipmentError,
    RequestPassword {
        pon_id: PonId,
    },
    ChurnedVp {
        pon_id: PonId,
        churned: bool,
        vpi: Vpi,
    },
    Popup,
    VendorSpecific {
        to: Address,
        kind: VendorKind,
        body: Octets<10>,
    },
    Pst {
        line: LineNumber,
        k1: u8,
        k2: u8,
    },
    BerInterval {
        pon_id: PonId,
        frames: Count,
    },
}
