// The words of a line that are left to read.
ghost use Rattle.std.specs.Prelude.{◌≡◌, [], ◌∷◌, IfOk, IfSome, MatchResult};
ghost use Rattle.std.specs.Str.Iter.{split_whitespace_steps};
ghost use Rattle.keyed.specs.Fields.{octets, serial as serial_field};
ghost use Rattle.cell_line.specs.Line.{left, NextField};

use crate::parse::value::Value;
use crate::wanted::Wanted;
use field::number::SerialNumber;
use keyed::key::Key;
use std::str::SplitWhitespace;

#[derive(Drop)]
pub(crate) struct Words<'a> {
    left: SplitWhitespace<'a>,
}

impl<'a> Words<'a> {
    pub(crate) fn new(line: &'a str) -> Words<'a>
        ensures { left result ≡ line.now }
    {
        Words {
            left: line.split_whitespace(),
        }
    }

    pub(crate) fn next(&mut self) -> Option<&'a str>
        ensures { split_whitespace_steps self.old.left result self.new.left }
    {
        self.left.next()
    }

    // What stands after the key, if the next word begins with it.
    pub(crate) fn text(&mut self, key: Key) -> Option<&'a str>
        ensures { IfSome result (λ text. NextField self.old (key, text.now) self.new) }
    {
        self.next()?.strip_prefix(key.name())?.strip_prefix('=')
    }

    // The value after the key.
    pub(crate) fn field<T: Value>(&mut self, key: Key) -> Result<T, Wanted>
        ensures { MatchResult result (λ value. NextField self.old (key, T.shown value) self.new) (λ wanted. wanted ≡ T.wants key) }
    {
        let wanted = T::wanted(key);
        T::read(self.text(key).ok_or(wanted)?).ok_or(wanted)
    }

    // A byte in two digits.
    pub(crate) fn byte(&mut self, key: Key) -> Result<u8, Wanted>
        ensures { IfOk result (λ byte. NextField self.old (octets key (byte ∷ [])) self.new) }
    {
        let [byte]: [u8; 1] = self.field(key)?;
        Ok(byte)
    }

    pub(crate) fn serial(&mut self) -> Result<SerialNumber, Wanted>
        ensures { IfOk result (λ serial. NextField self.old (serial_field serial.value) self.new) }
    {
        let bytes = self.field(Key::Serial)?;
        Ok(SerialNumber::saturating(u64::from_be_bytes(bytes)))
    }
}
