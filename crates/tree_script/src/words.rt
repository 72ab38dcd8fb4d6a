// The words of a line of a script, read one by one.
use keyed::hex::{self, NotHex};
use ports::tree::PORTS;
use std::alloc::Global;
use std::str::{FromStr, SplitWhitespace};

const BYTES: &str = "bytes in hex, or - for none";

// Why a line is no command.
#[derive(Clone, Copy, Debug, PartialEq, Eq)]
pub enum NoCommand {
    // what should have stood there
    Expected(&'static str),
    Memory,
}

impl From<NotHex> for NoCommand {
    fn from(fault: NotHex) -> NoCommand {
        match fault {
            NotHex::Digits => NoCommand::Expected(BYTES),
            NotHex::Memory => NoCommand::Memory,
        }
    }
}

// The words of a line that are still to be read.
#[derive(Drop)]
pub struct Words<'a> {
    heap: Global,
    words: SplitWhitespace<'a>,
}

impl<'a> Words<'a> {
    pub fn new(heap: Global, line: &'a str) -> Words<'a> {
        Words {
            heap,
            words: line.split_whitespace(),
        }
    }

    pub fn next(&mut self) -> Option<&'a str> {
        self.words.next()
    }

    pub fn word(&mut self, expected: &'static str) -> Result<&'a str, NoCommand> {
        self.words.next().ok_or(NoCommand::Expected(expected))
    }

    // A decimal number without a sign.
    pub fn number<T>(&mut self, most: T, expected: &'static str) -> Result<T, NoCommand>
    where
        T: FromStr + PartialOrd + Drop,
        T::Err: Drop,
    {
        let word = self.word(expected)?;
        let number = word.parse::<T>().ok();
        number
            .filter(|number| *number <= most && !word.starts_with('+'))
            .ok_or(NoCommand::Expected(expected))
    }

    pub fn port(&mut self) -> Result<usize, NoCommand> {
        self.number(PORTS - 1, "a port, 0 to 64")
    }

    pub fn word32(&mut self) -> Result<u64, NoCommand> {
        self.number(u64::from(u32::MAX), "a number below 4294967296")
    }

    pub fn word64(&mut self) -> Result<u64, NoCommand> {
        self.number(u64::MAX, "a number of 64 bits")
    }

    // The bytes of a word in hex, of a dash none.
    pub fn bytes_of(&self, word: &str) -> Result<Vec<u8>, NoCommand> {
        if word == "-" {
            return Ok(Vec::new(self.heap));
        }
        Ok(hex::bytes(self.heap, word)?)
    }

    pub fn bytes(&mut self) -> Result<Vec<u8>, NoCommand> {
        let word = self.word(BYTES)?;
        self.bytes_of(word)
    }

    // A number of 64 bits in 16 hex digits.
    pub fn hex64(&mut self) -> Result<u64, NoCommand> {
        let bytes = self.bytes()?;
        let eight = <[u8; 8]>::try_from(bytes.as_slice()).map_err(|_| NoCommand::Expected(
            "16 hex digits",
        ))?;
        Ok(u64::from_be_bytes(eight))
    }

    pub fn end(&mut self) -> Result<(), NoCommand> {
        match self.words.next() {
            None => Ok(()),
            Some(_) => Err(NoCommand::Expected("the end of the line")),
        }
    }
}
