// A line of a scenario read as a command.
use field::number::SerialNumber;
use field::octets::Octets;
use ports::tree::{Change, HostEvent};
use std::alloc::Global;
use std::fmt;
use tree_script::words::{NoCommand, Words};

// What the head is set up with.
#[derive(Drop)]
pub struct SetUp {
    pub guard: u64,
    pub pattern: Octets<3>,
    pub first: u64,
    pub calendar: Vec<u8>,
}

// A call on the head.
#[derive(Drop)]
pub enum Call {
    SetUp(SetUp),
    Enter { place: u64, serial: SerialNumber },
    Hold(u64),
    Release(u64),
    Look(u64),
}

impl fmt::Display for Call {
    fn fmt<W: fmt::Write>(&self, f: &mut fmt::Formatter<W>) -> fmt::Result {
        match self {
            Call::SetUp(_) => f.write_str("setup"),
            Call::Enter { place, .. } => write!(f, "enter {place}"),
            Call::Hold(place) => write!(f, "hold {place}"),
            Call::Release(place) => write!(f, "release {place}"),
            Call::Look(place) => write!(f, "look {place}"),
        }
    }
}

// A bench ONU for a port.
#[derive(Clone, Copy)]
pub struct Plug {
    pub port: usize,
    pub serial: SerialNumber,
    pub trip: u64,
}

// What is done to the plant; its ONUs stay.
#[derive(Clone, Copy)]
pub enum Work {
    Port { port: usize, change: Change },
    Feeder(u64),
    FeederPattern(u64),
    // no light either way
    Cut(usize),
    Mend(usize),
}

// What is done with the frames.
#[derive(Clone, Copy)]
pub enum Traffic {
    // so many frames, each settled so many frames late
    Run { frames: u64, late: usize },
    Send,
    // the oldest that is out
    Settle,
    // the newest, out of turn
    SettleNewest,
}

// What needs a head before the plant.
#[derive(Drop)]
pub enum Drive {
    Call(Call),
    Traffic(Traffic),
    // a slot is missed in the next frames
    Miss { slot: usize, frames: u64 },
    Picture(u64),
    // of a stretch of frames
    Svg { from: u64, to: u64 },
    // of a place
    Life(usize),
}

#[derive(Drop)]
pub enum Command {
    Scenario(String),
    Plug(Plug),
    Work(Work),
    Drive(Drive),
    Progress(bool),
    Show,
}

// What is done to the plant, by name.
const WORKS: [&str; 9] = [
    "fibre",
    "loss",
    "trip",
    "power",
    "signal",
    "feeder",
    "feederloss",
    "cut",
    "mend",
];

// The rest of a line.
#[derive(Drop)]
struct Rest<'a> {
    heap: Global,
    words: Words<'a>,
}

const COMMAND: &str = "a command";

const CALENDAR: &str = "nobody, places N, or a calendar in hex";

const FRAMES: &str = "a number of frames up to 1000000";

const SLOT: &str = "a slot, 1 to 53";

const PLACES: &str = "a number of places, 1 to 64";

const PLACE: &str = "a place, 0 to 63";

const LATE: &str = "late and 0 to 3, or the end of the line";

impl Rest<'_> {
    fn place(&mut self) -> Result<u64, NoCommand> {
        self.words.word64()
    }

    fn serial(&mut self) -> Result<SerialNumber, NoCommand> {
        Ok(SerialNumber::saturating(self.words.hex64()?))
    }

    fn lost(&mut self) -> Result<bool, NoCommand> {
        match self.words.next() {
            Some("lost") => Ok(true),
            Some("back") => Ok(false),
            _ => Err(NoCommand::Expected("lost or back")),
        }
    }

    fn pattern(&mut self) -> Result<Octets<3>, NoCommand> {
        let bytes = self.words.bytes()?;
        let three = <[u8; 3]>::try_from(bytes.as_slice());
        Ok(Octets::new(three.map_err(|_| NoCommand::Expected("3 bytes in hex"))?))
    }

    // Places 0 up to a number in turn.
    fn places(&mut self) -> Result<Vec<u8>, NoCommand> {
        let count: u8 = self.words.number(64, PLACES)?;
        if count == 0 {
            return Err(NoCommand::Expected(PLACES));
        }
        let calendar = (0..52u8).map(|k| k % count).collect(self.heap);
        calendar.map_err(|_| NoCommand::Memory)
    }

    fn calendar(&mut self) -> Result<Vec<u8>, NoCommand> {
        match self.words.word(CALENDAR)? {
            "nobody" => Vec::from_slice(self.heap, &[255; 52]).map_err(|_| NoCommand::Memory),
            "places" => self.places(),
            digits => self.words.bytes_of(digits),
        }
    }

    fn set_up(&mut self) -> Result<Call, NoCommand> {
        Ok(Call::SetUp(SetUp {
            guard: self.words.word64()?,
            pattern: self.pattern()?,
            first: self.words.word64()?,
            calendar: self.calendar()?,
        }))
    }

    fn plug(&mut self) -> Result<Plug, NoCommand> {
        Ok(Plug {
            port: self.words.port()?,
            serial: self.serial()?,
            trip: self.words.word32()?,
        })
    }

    fn change(&mut self, name: &str) -> Result<Change, NoCommand> {
        Ok(match name {
            "fibre" => Change::FibreBits(self.words.word32()?),
            "loss" => Change::Pattern(self.words.hex64()?),
            "trip" => Change::Host(HostEvent::Trip(self.words.word32()?)),
            "power" if self.lost()? => Change::Host(HostEvent::PowerLost),
            "signal" if self.lost()? => Change::Host(HostEvent::SignalLost),
            _ => Change::Host(HostEvent::SignalBack),
        })
    }

    fn work(&mut self, name: &str) -> Result<Work, NoCommand> {
        match name {
            "feeder" => Ok(Work::Feeder(self.words.word32()?)),
            "feederloss" => Ok(Work::FeederPattern(self.words.hex64()?)),
            "cut" => Ok(Work::Cut(self.words.port()?)),
            "mend" => Ok(Work::Mend(self.words.port()?)),
            _ => Ok(Work::Port {
                port: self.words.port()?,
                change: self.change(name)?,
            }),
        }
    }

    fn call(&mut self, name: &str) -> Result<Call, NoCommand> {
        match name {
            "setup" => self.set_up(),
            "enter" => Ok(Call::Enter {
                place: self.place()?,
                serial: self.serial()?,
            }),
            "hold" => Ok(Call::Hold(self.place()?)),
            "release" => Ok(Call::Release(self.place()?)),
            _ => Ok(Call::Look(self.place()?)),
        }
    }

    fn run(&mut self) -> Result<Traffic, NoCommand> {
        let frames = self.words.number(1000000, FRAMES)?;
        let late = match self.words.next() {
            None => 0,
            Some("late") => self.words.number(3, LATE)?,
            Some(_) => return Err(NoCommand::Expected(LATE)),
        };
        Ok(Traffic::Run { frames, late })
    }

    fn settle(&mut self) -> Result<Traffic, NoCommand> {
        match self.words.next() {
            None => Ok(Traffic::Settle),
            Some("newest") => Ok(Traffic::SettleNewest),
            Some(_) => Err(NoCommand::Expected("newest, or the end of the line")),
        }
    }

    fn miss(&mut self) -> Result<Drive, NoCommand> {
        let slot = self.words.number(53, SLOT)?;
        let frames = self.words.number(1000000, FRAMES)?;
        if slot == 0 {
            return Err(NoCommand::Expected(SLOT));
        }
        Ok(Drive::Miss { slot, frames })
    }

    fn svg(&mut self) -> Result<Drive, NoCommand> {
        Ok(Drive::Svg {
            from: self.words.word64()?,
            to: self.words.word64()?,
        })
    }

    fn progress(&mut self) -> Result<Command, NoCommand> {
        match self.words.next() {
            Some("on") => Ok(Command::Progress(true)),
            Some("off") => Ok(Command::Progress(false)),
            _ => Err(NoCommand::Expected("on or off")),
        }
    }

    fn scenario(&mut self) -> Result<Command, NoCommand> {
        let name = self.words.word("a name")?;
        let name = String::from_str(self.heap, name);
        Ok(Command::Scenario(name.map_err(|_| NoCommand::Memory)?))
    }

    fn drive(&mut self, name: &str) -> Result<Drive, NoCommand> {
        match name {
            "setup" | "enter" | "hold" | "release" | "look" => Ok(Drive::Call(self.call(name)?)),
            "run" => Ok(Drive::Traffic(self.run()?)),
            "send" => Ok(Drive::Traffic(Traffic::Send)),
            "settle" => Ok(Drive::Traffic(self.settle()?)),
            "miss" => self.miss(),
            "picture" => Ok(Drive::Picture(self.words.word64()?)),
            "svg" => self.svg(),
            "life" => Ok(Drive::Life(self.words.number(63, PLACE)?)),
            _ => Err(NoCommand::Expected(COMMAND)),
        }
    }

    // The command of that name.
    fn command(&mut self, name: &str) -> Result<Command, NoCommand> {
        match name {
            "scenario" => self.scenario(),
            "onu" => Ok(Command::Plug(self.plug()?)),
            "progress" => self.progress(),
            "show" => Ok(Command::Show),
            _ if WORKS.contains(&name) => Ok(Command::Work(self.work(name)?)),
            _ => Ok(Command::Drive(self.drive(name)?)),
        }
    }
}

impl Command {
    // The command of a line.
    pub fn read(heap: Global, line: &str) -> Result<Command, NoCommand> {
        let words = Words::new(heap, line);
        let mut rest = Rest { heap, words };
        let name = rest.words.word(COMMAND)?;
        let command = rest.command(name)?;
        rest.words.end()?;
        Ok(command)
    }
}
