ghost use Rattle.std.specs.Prelude.{◌≡◌, length};
ghost use Rattle.field.specs.Octets.{octets_of};

use super::Octets;

impl<const N: usize> Octets<N> {
    pub fn new(bytes: [u8; N]) -> Octets<N>
        ensures { result ≡ octets_of N bytes.entry }
    {
        Octets { bytes }
    }

    pub fn bytes(self) -> [u8; N]
        ensures bytes { result ≡ self.entry.bytes }
        ensures full { length result ≡ N }
    {
        self.bytes
    }
}
