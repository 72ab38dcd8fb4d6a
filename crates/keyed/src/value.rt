// Values as text, and one field of a line: a blank, the key, its sign and the value.
ghost use Rattle.std.specs.Prelude.{Some, cond, codes};
ghost use Rattle.std.specs.Fmt.{◌++?◌};
ghost use Rattle.field.specs.Bytes.{number_bytes};
ghost use Rattle.keyed.specs.Fields.{key_text, hexed, address_text};

use crate::hex::Digits;
use crate::key::Key;
use field::number::SerialNumber;
use field::octets::Octets;
use message::downstream::Address;
use std::fmt;

// A field with its key: ` guard=4`.
#[derive(Clone, Copy)]
pub struct Keyed<T>(pub Key, pub T);

impl<T: fmt::Display> fmt::Display for Keyed<T> {
    ghost output = { λ field. Some (key_text field.0) ++? T.output field.1 };

    fn fmt<W: fmt::Write>(&self, f: &mut fmt::Formatter<W>) -> fmt::Result {
        let Keyed(key, value) = self;
        write!(f, " {}={value}", key.name())
    }
}

// The value of a field, in the form that a line has.
#[derive(Clone, Copy)]
pub struct Shown<T>(pub T);

impl fmt::Display for Shown<bool> {
    ghost output = { λ flag. Some (cond flag.0 (codes "1") (codes "0")) };

    fn fmt<W: fmt::Write>(&self, f: &mut fmt::Formatter<W>) -> fmt::Result {
        f.write_str(if self.0 { "1" } else { "0" })
    }
}

impl<const N: usize> fmt::Display for Shown<Octets<N>> {
    ghost output = { λ octets. Some (hexed octets.0.bytes) };

    fn fmt<W: fmt::Write>(&self, f: &mut fmt::Formatter<W>) -> fmt::Result {
        write!(f, "{}", Digits(&self.0.bytes()))
    }
}

impl fmt::Display for Shown<SerialNumber> {
    ghost output = { λ serial. Some (hexed (number_bytes serial.0.value)) };

    fn fmt<W: fmt::Write>(&self, f: &mut fmt::Formatter<W>) -> fmt::Result {
        write!(f, "{}", Digits(&self.0.value().to_be_bytes()))
    }
}

impl fmt::Display for Shown<Address> {
    ghost output = { λ to. Some (address_text to.0) };

    fn fmt<W: fmt::Write>(&self, f: &mut fmt::Formatter<W>) -> fmt::Result {
        match self.0 {
            Address::One(pon_id) => write!(f, "{}", pon_id.value()),
            Address::All => f.write_str("all"),
        }
    }
}
