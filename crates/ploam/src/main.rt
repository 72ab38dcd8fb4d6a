// Reads PLOAM cells as text, and writes such text as cells.
#![tactic(auto)]

use crate::lines::run;
use crate::reader::Reader;
use crate::writer::Writer;
use std::rt::Env;
use std::{env, io};

mod lines;
mod reader;
mod report;
mod tally;
mod writer;

const HELP: &str =
    "ploam read    cells in hex on standard input, 48 or 96 bytes a line, as readable lines
ploam write   readable lines on standard input, as cells in hex
Blank lines are skipped, and so is what follows a #.
";

// What the arguments ask for.
#[derive(Clone, Copy)]
enum Command {
    Read,
    Write,
    Help,
}

impl From<&str> for Command {
    fn from(word: &str) -> Command {
        match word {
            "read" => Command::Read,
            "write" => Command::Write,
            _ => Command::Help,
        }
    }
}

impl Command {
    // The only argument, or help where there is none or more than one.
    fn given(rt: &(impl Env + Alloc)) -> io::Result<Command> {
        let mut args = env::args(rt)?.skip(1);
        match (args.next(), args.next()) {
            (Some(word), None) => Ok(word.as_str().into()),
            _ => Ok(Command::Help),
        }
    }
}

fn main(rt: HostRuntime) -> io::Result<()> {
    match Command::given(&rt)? {
        Command::Read => run(&rt, Reader::new(rt.alloc())),
        Command::Write => run(&rt, Writer {}),
        Command::Help => rt.print(HELP),
    }
}
