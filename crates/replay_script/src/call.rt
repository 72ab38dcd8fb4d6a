// A line read as a call on a head.
use field::number::SerialNumber;
use field::octets::Octets;
use keyed::hex::{self, NotHex};
use std::alloc::{AllocError, Global};
use std::str::SplitAsciiWhitespace;

// A longer buffer is not made.
const LONGEST: u64 = 65535;

#[derive(Drop)]
pub enum Call {
    SetUp {
        guard: u64,
        pattern: Octets<3>,
        first: u64,
        calendar: Vec<u8>,
    },
    Enter {
        place: u64,
        serial: SerialNumber,
    },
    Hold(u64),
    Release(u64),
    Look(u64),
    // with a buffer of so many bytes
    Send(usize),
    // with this report, for the oldest docket held
    Settle(Vec<u8>),
    Dump,
}

// Why a line is no call.
#[derive(Clone, Copy, Debug, PartialEq, Eq)]
pub enum NoCall {
    // what should have stood there
    Expected(&'static str),
    Memory,
}

impl From<AllocError> for NoCall {
    fn from(_error: AllocError) -> NoCall {
        NoCall::Memory
    }
}

// What a line of that name is to be.
fn form(name: &str) -> &'static str {
    match name {
        "setup" => "setup GUARD PATTERN FRAME CALENDAR",
        "enter" => "enter PLACE SERIAL",
        "hold" => "hold PLACE",
        "release" => "release PLACE",
        "look" => "look PLACE",
        "send" => "send or send LENGTH",
        "settle" => "settle REPORT or settle dark",
        "dump" => "dump",
        _ => "a call",
    }
}

// The words of a line that are still to be read.
#[derive(Drop)]
struct Words<'a> {
    heap: Global,
    words: SplitAsciiWhitespace<'a>,
    form: &'static str,
}

impl<'a> Words<'a> {
    fn wrong(&self) -> NoCall {
        NoCall::Expected(self.form)
    }

    fn word(&mut self) -> Result<&'a str, NoCall> {
        let form = self.form;
        self.words.next().ok_or(NoCall::Expected(form))
    }

    // A decimal number of up to 64 bits, in digits alone.
    fn number(&mut self) -> Result<u64, NoCall> {
        let word = self.word()?;
        let number = word.parse::<u64>().ok();
        number
            .filter(|_| !word.starts_with('+'))
            .ok_or(self.wrong())
    }

    // Bytes of a word in hex digits, or none for a dash.
    fn bytes_of(&self, word: &str) -> Result<Vec<u8>, NoCall> {
        if word == "-" {
            return Ok(Vec::new(self.heap));
        }
        if !word.bytes().all(|byte| byte.is_ascii_hexdigit()) {
            return Err(self.wrong());
        }
        hex::bytes(self.heap, word).map_err(|fault| match fault {
            NotHex::Digits => self.wrong(),
            NotHex::Memory => NoCall::Memory,
        })
    }

    fn bytes(&mut self) -> Result<Vec<u8>, NoCall> {
        let word = self.word()?;
        self.bytes_of(word)
    }

    // So many bytes in hex digits.
    fn exactly<const N: usize>(&mut self) -> Result<[u8; N], NoCall> {
        let bytes = self.bytes()?;
        <[u8; N]>::try_from(bytes.as_slice()).map_err(|_| self.wrong())
    }

    fn serial(&mut self) -> Result<SerialNumber, NoCall> {
        let bytes = self.exactly::<8>()?;
        Ok(SerialNumber::saturating(u64::from_be_bytes(bytes)))
    }

    // The length of a buffer, that of a frame where none is given.
    fn length(&mut self) -> Result<usize, NoCall> {
        let Some(word) = self.words.next() else {
            return Ok(96);
        };
        let length = word.parse::<u64>().ok();
        length
            .filter(|length| *length <= LONGEST && !word.starts_with('+'))
            .and_then(|length| usize::try_from(length).ok())
            .ok_or(self.wrong())
    }

    fn report(&mut self) -> Result<Vec<u8>, NoCall> {
        let word = self.word()?;
        if word == "dark" {
            return Ok(vec![in self.heap; 0; 954]?);
        }
        self.bytes_of(word)
    }

    fn end(&mut self) -> Result<(), NoCall> {
        match self.words.next() {
            None => Ok(()),
            Some(_) => Err(self.wrong()),
        }
    }

    // The call of that name.
    fn call(&mut self, name: &str) -> Result<Call, NoCall> {
        match name {
            "setup" => Ok(Call::SetUp {
                guard: self.number()?,
                pattern: Octets::new(self.exactly()?),
                first: self.number()?,
                calendar: self.bytes()?,
            }),
            "enter" => Ok(Call::Enter {
                place: self.number()?,
                serial: self.serial()?,
            }),
            "hold" => Ok(Call::Hold(self.number()?)),
            "release" => Ok(Call::Release(self.number()?)),
            "look" => Ok(Call::Look(self.number()?)),
            "send" => Ok(Call::Send(self.length()?)),
            "settle" => Ok(Call::Settle(self.report()?)),
            "dump" => Ok(Call::Dump),
            _ => Err(self.wrong()),
        }
    }
}

impl Call {
    // The call of a line.
    pub fn read(heap: Global, line: &str) -> Result<Call, NoCall> {
        let mut words = Words {
            heap,
            words: line.split_ascii_whitespace(),
            form: form(""),
        };
        let name = words.word()?;
        words.form = form(name);
        let call = words.call(name)?;
        words.end()?;
        Ok(call)
    }
}
