// A line of a script read as a command.
use crate::words::{NoCommand, Words};
use field::number::SerialNumber;
use ports::tree::{Change, HostEvent};
use std::alloc::Global;

#[derive(Drop)]
pub enum Command {
    New,
    Plug {
        port: usize,
        serial: SerialNumber,
        trip: u64,
    },
    Port {
        port: usize,
        change: Change,
    },
    Feeder(u64),
    FeederPattern(u64),
    Room(usize),
    Clear,
    Hear {
        count: usize,
        slot: u64,
        payload: Vec<u8>,
    },
    Show,
    Report {
        frame: u64,
        marks: Vec<u8>,
    },
}

impl Words<'_> {
    fn host_event(&mut self, name: &str) -> Result<HostEvent, NoCommand> {
        match (name, self.next()) {
            ("signal", Some("lost")) => Ok(HostEvent::SignalLost),
            ("signal", Some("back")) => Ok(HostEvent::SignalBack),
            ("power", Some("lost")) => Ok(HostEvent::PowerLost),
            ("signal", _) => Err(NoCommand::Expected("lost or back")),
            _ => Err(NoCommand::Expected("lost")),
        }
    }

    fn change(&mut self, name: &str) -> Result<Change, NoCommand> {
        match name {
            "fibre" => Ok(Change::FibreBits(self.word32()?)),
            "loss" => Ok(Change::Pattern(self.hex64()?)),
            "trip" => Ok(Change::Host(HostEvent::Trip(self.word32()?))),
            _ => Ok(Change::Host(self.host_event(name)?)),
        }
    }

    fn hear(&mut self, count: usize) -> Result<Command, NoCommand> {
        Ok(Command::Hear {
            count,
            slot: self.word64()?,
            payload: self.bytes()?,
        })
    }

    // The command of that name.
    fn command(&mut self, name: &str) -> Result<Command, NoCommand> {
        match name {
            "new" => Ok(Command::New),
            "clear" => Ok(Command::Clear),
            "show" => Ok(Command::Show),
            "feeder" => Ok(Command::Feeder(self.word32()?)),
            "feederloss" => Ok(Command::FeederPattern(self.hex64()?)),
            "room" => Ok(Command::Room(self.number(1000000, "a number up to 1000000")?)),
            "cell" => self.hear(1),
            "repeat" => {
                let count = self.number(10000000, "a count up to 10000000")?;
                self.hear(count)
            }
            "report" => Ok(Command::Report {
                frame: self.word64()?,
                marks: self.bytes()?,
            }),
            "onu" => Ok(Command::Plug {
                port: self.port()?,
                serial: SerialNumber::saturating(self.hex64()?),
                trip: self.word32()?,
            }),
            "fibre" | "loss" | "signal" | "power" | "trip" => Ok(Command::Port {
                port: self.port()?,
                change: self.change(name)?,
            }),
            _ => Err(NoCommand::Expected("a command")),
        }
    }
}

impl Command {
    // The command of a line.
    pub fn read(heap: Global, line: &str) -> Result<Command, NoCommand> {
        let mut words = Words::new(heap, line);
        let name = words.word("a command")?;
        let command = words.command(name)?;
        words.end()?;
        Ok(command)
    }
}
