// What a field can hold, as it stands after the field's key.
ghost use Rattle.std.specs.Prelude.{◌≡◌, ◌≢◌, ℕ, ◌^◌, ◌<◌, cond, codes, decimal, List, All, length, ⊤, MatchOption};
ghost use Rattle.keyed.specs.Fields.{hexed, address_text};
ghost use Rattle.readable.specs.Names.{kind_name};
ghost use Rattle.cell_line.specs.Wanted.{AfterKey, a_flag, a_number, digits, an_address, a_name};

use crate::wanted::Wanted;
use field::bounded::Bounded;
use field::number::Number;
use field::octets::Octets;
use keyed::hex;
use keyed::key::Key;
use message::downstream::Address;
use readable::kind::Kind;

pub(crate) trait Value: Sized {
    // the text of a value
    ghost shown: { Self → List ℕ };

    // what a value holds besides: a plain number or list of bytes, that its bytes fit
    ghost fits: { Self → Type 0 };

    // what is said where no value stands
    ghost wants: { AfterKey };

    // What should stand there.
    fn wanted(key: Key) -> Wanted
        ensures { result ≡ wants key };

    // The value of a text, if it is one.
    fn read(text: &str) -> Option<Self>
        ensures { MatchOption result ((value : Self) → fits value → shown value ≢ text.now) (λ value. shown value ≡ text.now) };
}

// A number as it is printed: no sign and no zero in front.
pub(crate) fn number(text: &str) -> Option<u64>
    ensures { MatchOption result ((n : ℕ) → n < 2 ^ 64 → decimal n ≢ text.now) (λ n. decimal n ≡ text.now) }
{
    if text.starts_with('+') {
        return None;
    }
    if text.len() > 1 && text.starts_with('0') {
        return None;
    }
    text.parse().ok()
}

impl Value for bool {
    ghost shown = { λ flag. cond flag (codes "1") (codes "0") };

    ghost fits = { λ flag. ⊤ };

    ghost wants = { a_flag };

    fn wanted(key: Key) -> Wanted {
        Wanted::Flag(key)
    }

    fn read(text: &str) -> Option<bool> {
        match text {
            "0" => Some(false),
            "1" => Some(true),
            _ => None,
        }
    }
}

impl Value for u8 {
    ghost shown = { λ n. decimal n };

    ghost fits = { λ n. n < 256 };

    ghost wants = { a_number 0 255 };

    fn wanted(key: Key) -> Wanted {
        Wanted::Number {
            key,
            low: 0,
            high: 255,
        }
    }

    fn read(text: &str) -> Option<u8> {
        u8::try_from(number(text)?).ok()
    }
}

impl<const LOW: u8, const HIGH: u8> Value for Bounded<LOW, HIGH> {
    ghost shown = { λ bounded. decimal bounded.value };

    ghost fits = { λ bounded. ⊤ };

    ghost wants = { a_number LOW HIGH };

    fn wanted(key: Key) -> Wanted {
        Wanted::Number {
            key,
            low: u64::from(LOW),
            high: u64::from(HIGH),
        }
    }

    fn read(text: &str) -> Option<Bounded<LOW, HIGH>> {
        Bounded::new(Value::read(text)?)
    }
}

impl<const HIGH: u64> Value for Number<HIGH> {
    ghost shown = { λ number. decimal number.value };

    ghost fits = { λ number. ⊤ };

    ghost wants = { a_number 0 HIGH };

    fn wanted(key: Key) -> Wanted {
        Wanted::Number {
            key,
            low: 0,
            high: HIGH,
        }
    }

    fn read(text: &str) -> Option<Number<HIGH>> {
        Number::new(number(text)?)
    }
}

impl<const N: usize> Value for [u8; N] {
    ghost shown = { λ bytes. hexed bytes };

    ghost fits = { λ bytes. (length bytes ≡ N) × All (λ b. b < 256) bytes };

    ghost wants = { digits N };

    fn wanted(key: Key) -> Wanted {
        Wanted::Digits {
            key,
            count: N.saturating_mul(2),
        }
    }

    fn read(text: &str) -> Option<[u8; N]> {
        hex::octets(text)
    }
}

impl<const N: usize> Value for Octets<N> {
    ghost shown = { λ octets. hexed octets.bytes };

    ghost fits = { λ octets. All (λ b. b < 256) octets.bytes };

    ghost wants = { digits N };

    fn wanted(key: Key) -> Wanted {
        <[u8; N]>::wanted(key)
    }

    fn read(text: &str) -> Option<Octets<N>> {
        Some(Octets::new(hex::octets(text)?))
    }
}

impl Value for Address {
    ghost shown = { λ to. address_text to };

    ghost fits = { λ to. ⊤ };

    ghost wants = { an_address };

    fn wanted(_key: Key) -> Wanted {
        Wanted::Address
    }

    fn read(text: &str) -> Option<Address> {
        match text {
            "all" => Some(Address::All),
            one => Value::read(one).map(Address::One),
        }
    }
}

impl Value for Kind {
    ghost shown = { λ kind. kind_name kind };

    ghost fits = { λ kind. ⊤ };

    ghost wants = { a_name };

    fn wanted(_key: Key) -> Wanted {
        Wanted::MessageName
    }

    fn read(text: &str) -> Option<Kind> {
        Kind::named(text)
    }
}
