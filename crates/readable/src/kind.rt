// The twenty kinds of message by name.
ghost use Rattle.std.specs.Prelude.{◌≡◌, MatchOption, Some, ◌≢◌, slice_get};
ghost use Rattle.readable.specs.declared.kind.TheConstants.{KINDS};
ghost use Rattle.readable.specs.Names.{kind_name, kind_of};

use message::downstream::Downstream;
use std::fmt;

#[derive(Clone, Copy, Debug, PartialEq, Eq, PartialOrd, Ord)]
pub enum Kind {
    NoMessage,
    UpstreamRxControl,
    UpstreamOverhead,
    RangingTime,
    SerialNumberMask,
    AssignPonId,
    DeactivatePonId,
    DisableSerialNumber,
    NewChurningKeyRequest,
    ChurningKeyUpdate,
    GrantAllocation,
    DividedSlotGrant,
    ConfigureVpVc,
    PhysicalEquipmentError,
    RequestPassword,
    ChurnedVp,
    Popup,
    VendorSpecific,
    Pst,
    BerInterval,
}

pub const KINDS: [Kind; 20] = [
    Kind::NoMessage,
    Kind::UpstreamRxControl,
    Kind::UpstreamOverhead,
    Kind::RangingTime,
    Kind::SerialNumberMask,
    Kind::AssignPonId,
    Kind::DeactivatePonId,
    Kind::DisableSerialNumber,
    Kind::NewChurningKeyRequest,
    Kind::ChurningKeyUpdate,
    Kind::GrantAllocation,
    Kind::DividedSlotGrant,
    Kind::ConfigureVpVc,
    Kind::PhysicalEquipmentError,
    Kind::RequestPassword,
    Kind::ChurnedVp,
    Kind::Popup,
    Kind::VendorSpecific,
    Kind::Pst,
    Kind::BerInterval,
];

impl Kind {
    pub fn name(self) -> &'static str
        ensures { result.now ≡ kind_name self }
    {
        match self {
            Kind::NoMessage => "No_message",
            Kind::UpstreamRxControl => "Upstream_RX_control",
            Kind::UpstreamOverhead => "Upstream_overhead",
            Kind::RangingTime => "Ranging_time",
            Kind::SerialNumberMask => "Serial_number_mask",
            Kind::AssignPonId => "Assign_PON_ID",
            Kind::DeactivatePonId => "Deactivate_PON_ID",
            Kind::DisableSerialNumber => "Disable_serial_number",
            Kind::NewChurningKeyRequest => "New_churning_key_request",
            Kind::ChurningKeyUpdate => "Churning_key_update",
            Kind::GrantAllocation => "Grant_allocation",
            Kind::DividedSlotGrant => "Divided_slot_grant_configuration",
            Kind::ConfigureVpVc => "Configure_VP_VC",
            Kind::PhysicalEquipmentError => "Physical_equipment_error",
            Kind::RequestPassword => "Request_password",
            Kind::ChurnedVp => "Churned_VP",
            Kind::Popup => "POPUP",
            Kind::VendorSpecific => "Vendor_specific",
            Kind::Pst => "PST",
            Kind::BerInterval => "BER_interval",
        }
    }

    // Where it stands in the list of kinds.
    pub fn place(self) -> usize
        ensures { slice_get KINDS result ≡ Some self }
    {
        self as usize
    }

    // The kind of that name, if there is one.
    pub fn named(name: &str) -> Option<Kind>
        ensures { MatchOption result ((k : Kind) → kind_name k ≢ name.now) (λ k. kind_name k ≡ name.now) }
    {
        KINDS.iter().copied().find(|kind| kind.name() == name)
    }
}

impl fmt::Display for Kind {
    ghost output = { λ kind. Some (kind_name kind) };

    fn fmt<W: fmt::Write>(&self, f: &mut fmt::Formatter<W>) -> fmt::Result {
        f.write_str(self.name())
    }
}

impl From<&Downstream> for Kind {
    ghost from_gives = { λ message kind. kind ≡ kind_of message.now };

    fn from(message: &Downstream) -> Kind {
        match message {
            Downstream::NoMessage => Kind::NoMessage,
            Downstream::UpstreamRxControl { .. } => Kind::UpstreamRxControl,
            Downstream::UpstreamOverhead { .. } => Kind::UpstreamOverhead,
            Downstream::RangingTime { .. } => Kind::RangingTime,
            Downstream::SerialNumberMask { .. } => Kind::SerialNumberMask,
            Downstream::AssignPonId { .. } => Kind::AssignPonId,
            Downstream::DeactivatePonId { .. } => Kind::DeactivatePonId,
            Downstream::DisableSerialNumber { .. } => Kind::DisableSerialNumber,
            Downstream::NewChurningKeyRequest { .. } => Kind::NewChurningKeyRequest,
            Downstream::ChurningKeyUpdate { .. } => Kind::ChurningKeyUpdate,
            Downstream::GrantAllocation { .. } => Kind::GrantAllocation,
            Downstream::DividedSlotGrant { .. } => Kind::DividedSlotGrant,
            Downstream::ConfigureVpVc { .. } => Kind::ConfigureVpVc,
            Downstream::PhysicalEquipmentError => Kind::PhysicalEquipmentError,
            Downstream::RequestPassword { .. } => Kind::RequestPassword,
            Downstream::ChurnedVp { .. } => Kind::ChurnedVp,
            Downstream::Popup => Kind::Popup,
            Downstream::VendorSpecific { .. } => Kind::VendorSpecific,
            Downstream::Pst { .. } => Kind::Pst,
            Downstream::BerInterval { .. } => Kind::BerInterval,
        }
    }
}
