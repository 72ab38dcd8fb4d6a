// The fields of a message to the ONUs, taken from the words after its name.
ghost use Rattle.std.specs.Prelude.{[], ◌∷◌, IfOk};
ghost use Rattle.keyed.specs.Fields.{number, flag};
ghost use Rattle.cell_line.specs.Line.{NextFields, ReadsMessage};

use crate::parse::words::Words;
use crate::wanted::Wanted;
use field::bounded::Bounded;
use field::minislot::Minislot;
use keyed::key::Key;
use message::downstream::{Access, Allocation, Downstream, RxPart};
use readable::kind::Kind;

impl Words<'_> {
    fn rx_control(&mut self) -> Result<Downstream, Wanted>
        ensures { ReadsMessage self.old Kind.UpstreamRxControl result self.new }
    {
        let part = if self.field(Key::Part)? {
            RxPart::Second(self.field(Key::Bytes)?)
        } else {
            RxPart::First(self.field(Key::Bytes)?)
        };
        Ok(Downstream::UpstreamRxControl { part })
    }

    fn upstream_overhead(&mut self) -> Result<Downstream, Wanted>
        ensures { ReadsMessage self.old Kind.UpstreamOverhead result self.new }
    {
        Ok(Downstream::UpstreamOverhead {
            guard: self.field(Key::Guard)?,
            overhead: self.field(Key::Overhead)?,
            delay: self.field(Key::Delay)?,
        })
    }

    fn ranging_time(&mut self) -> Result<Downstream, Wanted>
        ensures { ReadsMessage self.old Kind.RangingTime result self.new }
    {
        Ok(Downstream::RangingTime {
            pon_id: self.field(Key::PonId)?,
            delay: self.field(Key::Delay)?,
        })
    }

    fn serial_number_mask(&mut self) -> Result<Downstream, Wanted>
        ensures { ReadsMessage self.old Kind.SerialNumberMask result self.new }
    {
        Ok(Downstream::SerialNumberMask {
            bits: self.field(Key::Bits)?,
            serial: self.serial()?,
        })
    }

    fn assign_pon_id(&mut self) -> Result<Downstream, Wanted>
        ensures { ReadsMessage self.old Kind.AssignPonId result self.new }
    {
        Ok(Downstream::AssignPonId {
            pon_id: self.field(Key::PonId)?,
            serial: self.serial()?,
        })
    }

    fn disable_serial_number(&mut self) -> Result<Downstream, Wanted>
        ensures { ReadsMessage self.old Kind.DisableSerialNumber result self.new }
    {
        let access = match self.text(Key::Access) {
            Some("deny") => Access::Deny(self.serial()?),
            Some("allow") => Access::Allow(self.serial()?),
            Some("allow_all") => Access::AllowAll,
            _ => return Err(Wanted::Access),
        };
        Ok(Downstream::DisableSerialNumber { access })
    }

    fn churning_key_update(&mut self) -> Result<Downstream, Wanted>
        ensures { ReadsMessage self.old Kind.ChurningKeyUpdate result self.new }
    {
        Ok(Downstream::ChurningKeyUpdate {
            pon_id: self.field(Key::PonId)?,
            count: self.field(Key::Count)?,
        })
    }

    // A code and then its flag.
    fn allocation(&mut self, code: Key, active: Key) -> Result<Allocation, Wanted>
        ensures { IfOk result (λ allocation. NextFields self.old (number code allocation.code.value ∷ flag active allocation.active ∷ []) self.new) }
    {
        Ok(Allocation {
            code: self.field(code)?,
            active: self.field(active)?,
        })
    }

    fn grant_allocation(&mut self) -> Result<Downstream, Wanted>
        ensures { ReadsMessage self.old Kind.GrantAllocation result self.new }
    {
        Ok(Downstream::GrantAllocation {
            pon_id: self.field(Key::PonId)?,
            grant: self.allocation(Key::Data, Key::DataActive)?,
            ploam: self.allocation(Key::Ploam, Key::PloamActive)?,
        })
    }

    // The offset of a part of the slot, and then its length.
    fn minislot(&mut self) -> Result<Minislot, Wanted>
        ensures { IfOk result (λ part. NextFields self.old (number Key.Offset part.offset ∷ number Key.Length part.length ∷ []) self.new) }
    {
        let offset: Bounded<0, 52> = self.field(Key::Offset)?;
        let offset = offset.value();
        let wanted = Wanted::Number {
            key: Key::Length,
            low: 1,
            high: u64::from(53 - offset),
        };
        match self.field(Key::Length) {
            Ok(length) => Minislot::new(offset, length).ok_or(wanted),
            Err(_) => Err(wanted),
        }
    }

    fn divided_slot_grant(&mut self) -> Result<Downstream, Wanted>
        ensures { ReadsMessage self.old Kind.DividedSlotGrant result self.new }
    {
        let pon_id = self.field(Key::PonId)?;
        let active = self.field(Key::Active)?;
        let code = self.field(Key::Code)?;
        let part = self.minislot()?;
        let service = self.field(Key::Service)?;
        Ok(Downstream::DividedSlotGrant {
            pon_id,
            slot: Allocation { code, active },
            part,
            service,
        })
    }

    fn configure_vp_vc(&mut self) -> Result<Downstream, Wanted>
        ensures { ReadsMessage self.old Kind.ConfigureVpVc result self.new }
    {
        Ok(Downstream::ConfigureVpVc {
            pon_id: self.field(Key::PonId)?,
            active: self.field(Key::Active)?,
            header: self.field(Key::Header)?,
            mask: self.field(Key::Mask)?,
        })
    }

    fn churned_vp(&mut self) -> Result<Downstream, Wanted>
        ensures { ReadsMessage self.old Kind.ChurnedVp result self.new }
    {
        Ok(Downstream::ChurnedVp {
            pon_id: self.field(Key::PonId)?,
            churned: self.field(Key::Churned)?,
            vpi: self.field(Key::Vpi)?,
        })
    }

    fn vendor_specific(&mut self) -> Result<Downstream, Wanted>
        ensures { ReadsMessage self.old Kind.VendorSpecific result self.new }
    {
        Ok(Downstream::VendorSpecific {
            to: self.field(Key::PonId)?,
            kind: self.field(Key::Kind)?,
            body: self.field(Key::Bytes)?,
        })
    }

    fn pst(&mut self) -> Result<Downstream, Wanted>
        ensures { ReadsMessage self.old Kind.Pst result self.new }
    {
        Ok(Downstream::Pst {
            line: self.field(Key::Line)?,
            k1: self.byte(Key::K1)?,
            k2: self.byte(Key::K2)?,
        })
    }

    fn ber_interval(&mut self) -> Result<Downstream, Wanted>
        ensures { ReadsMessage self.old Kind.BerInterval result self.new }
    {
        Ok(Downstream::BerInterval {
            pon_id: self.field(Key::PonId)?,
            frames: self.field(Key::Frames)?,
        })
    }

    // A message of that kind.
    pub(crate) fn message(&mut self, kind: Kind) -> Result<Downstream, Wanted>
        ensures { ReadsMessage self.old kind result self.new }
    {
        match kind {
            Kind::NoMessage => Ok(Downstream::NoMessage),
            Kind::UpstreamRxControl => self.rx_control(),
            Kind::UpstreamOverhead => self.upstream_overhead(),
            Kind::RangingTime => self.ranging_time(),
            Kind::SerialNumberMask => self.serial_number_mask(),
            Kind::AssignPonId => self.assign_pon_id(),
            Kind::DeactivatePonId => Ok(Downstream::DeactivatePonId {
                to: self.field(Key::PonId)?,
            }),
            Kind::DisableSerialNumber => self.disable_serial_number(),
            Kind::NewChurningKeyRequest => Ok(Downstream::NewChurningKeyRequest {
                pon_id: self.field(Key::PonId)?,
            }),
            Kind::ChurningKeyUpdate => self.churning_key_update(),
            Kind::GrantAllocation => self.grant_allocation(),
            Kind::DividedSlotGrant => self.divided_slot_grant(),
            Kind::ConfigureVpVc => self.configure_vp_vc(),
            Kind::PhysicalEquipmentError => Ok(Downstream::PhysicalEquipmentError),
            Kind::RequestPassword => Ok(Downstream::RequestPassword {
                pon_id: self.field(Key::PonId)?,
            }),
            Kind::ChurnedVp => self.churned_vp(),
            Kind::Popup => Ok(Downstream::Popup),
            Kind::VendorSpecific => self.vendor_specific(),
            Kind::Pst => self.pst(),
            Kind::BerInterval => self.ber_interval(),
        }
    }
}
