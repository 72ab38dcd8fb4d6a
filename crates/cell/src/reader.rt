// A cell of 48 bytes, read in place.
ghost use Rattle.std.specs.Prelude.{◌≡◌, ◌%◌, length, Ok, Err, ◌≢◌};
ghost use Rattle.message.specs.Downstream.{downstream_of};
ghost use Rattle.cell.specs.Reader.{first_of, group_of, size_of, message_part, group_checked, message_checked, checked_of, read_of, grant_in};

use crate::fault::{CellFault, CheckFault, Group};
use field::check::{check_byte, check_byte_and_zero};
use field::coded::Coded;
use field::grant::Grant;
use message::downstream::Downstream;
use message::fault::MessageFault;

#[derive(Clone, Copy)]
pub struct Cell<'a> {
    pub bytes: &'a [u8; 48],
}

impl<'a> Cell<'a> {
    // A reader over these bytes, if there are 48.
    pub fn new(bytes: &'a [u8]) -> Result<Cell<'a>, CellFault>
        ensures { elim result [ Ok c ↦ (length bytes.now ≡ 48) × (c.bytes.now ≡ bytes.now) | Err e ↦ (e ≡ CellFault.Length) × (length bytes.now ≢ 48) ] }
    {
        let bytes = <&'a [u8; 48]>::try_from(bytes).map_err(|_| CellFault::Length)?;
        Ok(Cell { bytes })
    }

    // Whether this is the first cell of its frame; the byte's other bits are not looked at.
    pub fn first(&self) -> bool
        ensures { result ≡ first_of self.now.bytes.now }
    {
        self.bytes[0] % 2 == 1
    }

    // The grants of one group, as they stand in the cell.
    pub fn group(&self, group: Group) -> &'a [u8]
        ensures value { result.now ≡ group_of group self.now.bytes.now }
        ensures len { length result.now ≡ size_of group }
    {
        let whole = self.bytes;
        match group {
            Group::First => &whole[3..10],
            Group::Second => &whole[11..18],
            Group::Third => &whole[19..26],
            Group::Fourth => &whole[27..33],
        }
    }

    // The twelve bytes of the message, as they stand in the cell.
    pub fn message_bytes(&self) -> &'a [u8]
        ensures value { result.now ≡ message_part self.now.bytes.now }
        ensures len { length result.now ≡ 12 }
    {
        let whole = self.bytes;
        &whole[34..46]
    }

    // Whether a group's check byte fits; the others do not matter to it.
    pub fn check_group(&self, group: Group) -> Result<(), CheckFault>
        ensures { result ≡ group_checked group self.now.bytes.now }
    {
        let whole = self.bytes;
        let grants = self.group(group);
        let fits = match group {
            Group::First => check_byte(grants) == whole[10],
            Group::Second => check_byte(grants) == whole[18],
            Group::Third => check_byte(grants) == whole[26],
            Group::Fourth => check_byte_and_zero(grants) == whole[33],
        };
        if fits {
            Ok(())
        } else {
            Err(CheckFault::Grants(group))
        }
    }

    // Whether the message's check byte fits.
    pub fn check_message(&self) -> Result<(), CheckFault>
        ensures { result ≡ message_checked self.now.bytes.now }
    {
        let whole = self.bytes;
        if check_byte(self.message_bytes()) == whole[46] {
            Ok(())
        } else {
            Err(CheckFault::Message)
        }
    }

    // Whether all five check bytes fit, or the first that does not.
    pub fn check(&self) -> Result<(), CheckFault>
        ensures { result ≡ checked_of self.now.bytes.now }
    {
        self.check_group(Group::First)?;
        self.check_group(Group::Second)?;
        self.check_group(Group::Third)?;
        self.check_group(Group::Fourth)?;
        self.check_message()
    }

    // The message, its check byte left aside.
    pub fn message(&self) -> Result<Downstream, MessageFault>
        ensures { result ≡ downstream_of (message_part self.now.bytes.now) }
    {
        match <&'a [u8; 12]>::try_from(self.message_bytes()) {
            Ok(bytes) => Downstream::read(bytes),
            Err(_) => unreachable(),
        }
    }

    // The strict reading: the message, where all check bytes fit and it is one; the grants stay where they stand.
    pub fn read(&self) -> Result<Downstream, CellFault>
        ensures { result ≡ read_of self.now.bytes.now }
    {
        self.check()?;
        let message = self.message()?;
        Ok(message)
    }

    // The grant at a place, counted from 1 to 27.
    pub fn grant(&self, place: u8) -> Option<Grant>
        ensures { result ≡ grant_in place self.now.bytes.now }
    {
        if place < 1 || place > 27 {
            return None;
        }
        let k = usize::from(place - 1);
        Some(Grant::from(self.bytes[k + 3 + k / 7]))
    }
}
