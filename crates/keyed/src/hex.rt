// Bytes as hex digits, two for each byte, and back.
ghost use Rattle.std.specs.Prelude.{◌≡◌, ◌+◌, ◌*◌, ◌/◌, ◌%◌, ◌<◌, ◌≤◌, ◌++◌, Some, List, ℕ, length, take, option_map, string_bytes, IfSome, MatchOption, MatchResult, OnOk};
ghost use Rattle.std.specs.Char.{digit_char};
ghost use Rattle.std.specs.Str.{IsUtf8};
ghost use Rattle.std.specs.Simd.{first_chunks};
ghost use Rattle.keyed.specs.Fields.{hexed};
ghost use Rattle.keyed.specs.Hex.{digit, pair, exactly, BytesAndDigitsAgree, word_bytes, words_bytes};
ghost use Rattle.keyed.specs.Words.{FirstWords, AreWords, WordsAreOne};
ghost use Rattle.keyed.specs.NotHex.{not_hex_words};
ghost use Rattle.keyed.specs.declared.hex.NotHex.TheVariants.{Memory};

use std::alloc::{AllocError, AllocFailed, Global};
use std::error::Error;
use std::fmt;

// Why a line is no run of bytes.
#[derive(Clone, Copy, Debug, PartialEq, Eq)]
pub enum NotHex {
    // something other than two hex digits stands where a byte should
    Digits,
    Memory,
}

impl fmt::Display for NotHex {
    ghost output = { λ fault. Some (not_hex_words fault) };

    fn fmt<W: fmt::Write>(&self, f: &mut fmt::Formatter<W>) -> fmt::Result {
        match self {
            NotHex::Digits => f.write_str("not hex"),
            NotHex::Memory => f.write_str("out of memory"),
        }
    }
}

impl Error for NotHex {}

impl From<AllocError> for NotHex {
    ghost from_gives = { λ _ e. e ≡ Memory };

    fn from(_e: AllocError) -> NotHex {
        NotHex::Memory
    }
}

impl<T: Drop> From<AllocFailed<T>> for NotHex {
    ghost from_gives = { λ _ e. e ≡ Memory };

    fn from(_e: AllocFailed<T>) -> NotHex {
        NotHex::Memory
    }
}

// The lowercase digit of a number below sixteen.
fn lowercase(value: u8) -> u8
    requires { value < 16 }
    ensures { result ≡ digit_char value }
{
    match value {
        0..=9 => b'0' + value,
        _ => b'a' + (value - 10),
    }
}

// The digits of at most 32 bytes, at the front. One text of many digits is written sooner than many of few.
fn digits_of(bytes: &[u8]) -> [u8; 64]
    requires { length bytes.now ≤ 32 }
    ensures digits { take (2 * length bytes.now) result ≡ hexed bytes.now }
    ensures utf8 { IsUtf8 (hexed bytes.now) }
{
    let mut text = [0; 64];
    for (place, byte) in bytes.iter().enumerate() {
        text[2 * place] = lowercase(byte / 16);
        text[2 * place + 1] = lowercase(byte % 16);
    }
    text
}

// Bytes that print as two lowercase digits each.
#[derive(Clone, Copy)]
pub struct Digits<'a>(pub &'a [u8]);

impl fmt::Display for Digits<'_> {
    ghost output = { λ digits. Some (hexed digits.0.now) };

    fn fmt<W: fmt::Write>(&self, f: &mut fmt::Formatter<W>) -> fmt::Result {
        let mut rest = self.0;
        while !rest.is_empty() {
            let (few, later) = rest.split_at(rest.len().min(32));
            let text = digits_of(few);
            f.write_str(str::from_utf8(&text[..2 * few.len()]).unwrap())?;
            rest = later;
        }
        Ok(())
    }
}

// Appends two digits for each byte.
pub fn push_digits(out: &mut String, bytes: &[u8]) -> Result<(), AllocError>
    ensures { OnOk result (string_bytes out.new ≡ string_bytes out.old ++ hexed bytes.now) }
{
    write!(out, "{}", Digits(bytes))
}

// What a lowercase digit counts.
fn digit_value(code: u8) -> Option<u8>
    ensures value { result ≡ digit code }
    ensures small { IfSome result (λ v. v < 16) }
{
    match code {
        b'0'..=b'9' => Some(code - b'0'),
        b'a'..=b'f' => Some(code - b'a' + 10),
        _ => None,
    }
}

// The byte of two lowercase digits.
fn byte(high: u8, low: u8) -> Option<u8>
    ensures { result ≡ pair high low }
{
    let high = digit_value(high)?;
    let low = digit_value(low)?;
    Some(high * 16 + low)
}

// A text two bytes at a time, if none is left over.
fn digit_pairs(text: &str) -> Option<&[[u8; 2]]>
    ensures { MatchOption result (length text.now % 2 ≡ 1) (λ pairs. (length text.now ≡ 2 * length pairs.now) × (pairs.now ≡ first_chunks 2 (length pairs.now) text.now)) }
{
    match text.as_bytes().as_chunks() {
        (pairs, []) => Some(pairs),
        _ => None,
    }
}

// Exactly N bytes in lowercase digits, or none.
pub fn octets<const N: usize>(text: &str) -> Option<[u8; N]>
    ensures { result ≡ exactly N text.now }
{
    let pairs = digit_pairs(text)?;
    if pairs.len() != N {
        return None;
    }
    let mut bytes = [0u8; N];
    for (place, [high, low]) in pairs.iter().enumerate() {
        bytes[place] = byte(*high, *low)?;
    }
    Some(bytes)
}

// Appends the bytes of one word of digits.
fn push_word(bytes: &mut Vec<u8>, word: &str) -> Result<(), NotHex>
    ensures { MatchResult result
        (λ _. option_map (λ read. bytes.old.items ++ read) (word_bytes word.now) ≡ Some bytes.new.items)
        (λ e. e ≡ NotHex.Digits → word_bytes word.now ≡ None) }
{
    for [high, low] in digit_pairs(word).ok_or(NotHex::Digits)? {
        let byte = byte(high.to_ascii_lowercase(), low.to_ascii_lowercase());
        bytes.push(byte.ok_or(NotHex::Digits)?)?;
    }
    Ok(())
}

// The bytes of a line of hex digits, with blanks between bytes or none.
pub fn bytes(heap: Global, line: &str) -> Result<Vec<u8>, NotHex>
    ensures { MatchResult result
        (λ read. (words : List (List ℕ)) × AreWords line.now words × (words_bytes words ≡ Some read.items))
        (λ e. e ≡ NotHex.Digits → (words : List (List ℕ)) × (rest : List ℕ) × FirstWords line.now words rest × (words_bytes words ≡ None)) }
{
    let mut bytes = Vec::new(heap);
    for word in line.split_whitespace() {
        push_word(&mut bytes, word)?;
    }
    Ok(bytes)
}

// Reading undoes writing, and writing reading.
pub fn reading_undoes_writing()
    ensures { BytesAndDigitsAgree }
{}

// A text has one list of words.
pub fn words_are_one()
    ensures { WordsAreOne }
{}
