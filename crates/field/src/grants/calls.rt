ghost use Rattle.std.specs.Prelude.{◌≡◌, map, length, if◌then◌else◌, Some, None, nat_lt, slice_index};
ghost use Rattle.field.specs.Grant.{grant_of, code_of};
ghost use Rattle.field.specs.Octets.{grants_of};

use super::Grants;
use crate::grant::Grant;

impl<const N: usize> Grants<N> {
    pub fn from_codes(codes: [u8; N]) -> Grants<N>
        ensures { result ≡ grants_of N codes.entry }
    {
        Grants { codes }
    }

    pub fn new(places: [Grant; N]) -> Grants<N>
        ensures { result ≡ grants_of N (map code_of places.entry) }
    {
        let mut codes = [0; N];
        for (k, grant) in places.iter().enumerate() {
            codes[k] = u8::from(*grant);
        }
        Grants::from_codes(codes)
    }

    pub fn codes(self) -> [u8; N]
        ensures codes { result ≡ self.entry.codes }
        ensures full { length result ≡ N }
    {
        self.codes
    }

    // All of them, as grants.
    pub fn places(self) -> [Grant; N]
        ensures { result ≡ map grant_of self.entry.codes }
    {
        let codes = self.codes;
        let mut places = [Grant::Idle; N];
        for (k, code) in codes.iter().enumerate() {
            places[k] = Grant::from(*code);
        }
        places
    }

    // The grant at a place, counted from 0; none past the last.
    pub fn place(&self, k: usize) -> Option<Grant>
        ensures { result ≡ (if nat_lt k N then Some (grant_of (slice_index self.now.codes k)) else None) }
    {
        if k < N {
            Some(Grant::from(self.codes[k]))
        } else {
            None
        }
    }
}
