// Scripts run line by line.
use crate::command::Command;
use crate::shown::{Move, ShownBurst, ShownOnu};
use crate::words::NoCommand;
use keyed::hex::Digits;
use onu::state::State;
use plant::burst::Burst;
use plant::plant::Plant;
use ports::tree::{Change, PORTS, Tree};
use receiver::receive::receive;
use std::alloc::{AllocError, Global};
use std::io::{BufRead, BufReader};
use std::num::Saturating;
use std::{array, fmt, io, iter};

// What came over the whole script.
#[derive(Clone, Copy, Default)]
struct Totals {
    heard: Saturating<u64>,
    refused: Saturating<u64>,
    sent: Saturating<u64>,
}

impl fmt::Display for Totals {
    fn fmt<W: fmt::Write>(&self, f: &mut fmt::Formatter<W>) -> fmt::Result {
        let Totals {
            heard,
            refused,
            sent,
        } = *self;
        write!(f, "heard {heard} cells, {refused} refused, {sent} bursts")
    }
}

#[derive(Drop)]
struct Script {
    heap: Global,
    tree: Tree,
    bursts: Vec<Burst>,
    // cells since the line was new
    cells: Saturating<u64>,
    totals: Totals,
    // what is to be printed
    out: String,
}

const ROOM: usize = 65536;

impl Script {
    fn new(heap: Global) -> Result<Script, AllocError> {
        Ok(Script {
            heap,
            tree: Tree::new(heap)?,
            bursts: Vec::with_capacity(heap, ROOM)?,
            cells: Saturating(0),
            totals: Totals::default(),
            out: String::new(heap),
        })
    }

    // A fresh line; the totals go on. Nothing of the last line of the script is left to print.
    fn renew(&mut self) -> Result<(), AllocError> {
        let totals = self.totals;
        *self = Script {
            totals,
            ..Script::new(self.heap)?
        };
        Ok(())
    }

    // The state of a port's ONU.
    fn state(&self, port: usize) -> Option<State> {
        self.tree.look(port).map(|onu| onu.state)
    }

    fn states(&self) -> [Option<State>; PORTS] {
        array::from_fn(|port| self.state(port))
    }

    // The bursts from a place in the list on.
    fn tell_bursts(&mut self, from: usize) -> Result<(), AllocError> {
        let cell = self.cells;
        let new = self.bursts.as_slice().get(from..).unwrap_or(&[]);
        self.totals.sent += new.len() as u64;
        for burst in new {
            writeln!(self.out, "{cell}: {}", ShownBurst(burst))?;
        }
        Ok(())
    }

    fn tell_moves(&mut self, before: &[Option<State>; PORTS]) -> Result<(), AllocError> {
        let cell = self.cells;
        let after = self.states();
        for (port, (old, new)) in before.iter().zip(&after).enumerate() {
            if let Some(moved) = Move::between(*old, *new) {
                writeln!(self.out, "{cell}: port {port} {moved}")?;
            }
        }
        Ok(())
    }

    fn hear(&mut self, slot: u64, payload: &[u8]) -> Result<(), AllocError> {
        self.cells += 1;
        self.totals.heard += 1;
        let before = self.states();
        let from = self.bursts.len();
        match self.tree.hear(payload, slot, &mut self.bursts) {
            Ok(()) => {
                self.tell_bursts(from)?;
                self.tell_moves(&before)
            }
            Err(fault) => {
                self.totals.refused += 1;
                let cell = self.cells;
                writeln!(self.out, "{cell}: refused {}", fault.number())
            }
        }
    }

    fn change(&mut self, port: usize, change: Change) -> Result<(), AllocError> {
        let before = self.state(port);
        self.tree.change(port, change);
        let Change::Host(_) = change else {
            return Ok(());
        };
        if before.is_none() {
            return writeln!(self.out, "port {port}: empty");
        }
        match Move::between(before, self.state(port)) {
            Some(moved) => writeln!(self.out, "port {port} {moved}"),
            None => Ok(()),
        }
    }

    fn show(&mut self) -> Result<(), AllocError> {
        for port in 0..PORTS {
            if let Some(onu) = self.tree.look(port) {
                writeln!(self.out, "port {port} {}", ShownOnu(&onu))?;
            }
        }
        Ok(())
    }

    fn report(&mut self, frame: u64, marks: &[u8]) -> Result<(), AllocError> {
        let mut bytes = [0; 954];
        match receive(frame, self.bursts.as_slice(), marks, &mut bytes) {
            Ok(()) => writeln!(self.out, "report {frame}: {}", Digits(&bytes)),
            Err(fault) => writeln!(self.out, "report {frame}: refused {}", fault.number()),
        }
    }

    // The cell so many times, each time 27 slots later.
    fn hear_all(&mut self, count: usize, slot: u64, payload: &[u8]) -> Result<(), AllocError> {
        for slot in iter::successors(Some(slot), |slot| Some(slot.saturating_add(27))).take(count) {
            self.hear(slot, payload)?;
        }
        Ok(())
    }

    fn act(&mut self, command: Command) -> Result<(), AllocError> {
        match command {
            Command::New => self.renew()?,
            Command::Plug { port, serial, trip } => self.tree.plug(port, serial, trip),
            Command::Port { port, change } => self.change(port, change)?,
            Command::Feeder(bits) => self.tree.set_feeder(bits),
            Command::FeederPattern(pattern) => self.tree.set_feeder_pattern(pattern),
            Command::Room(room) => self.bursts = Vec::with_capacity(self.heap, room)?,
            Command::Clear => self.bursts.clear(),
            Command::Hear {
                count,
                slot,
                payload,
            } => self.hear_all(count, slot, payload.as_slice())?,
            Command::Show => self.show()?,
            Command::Report { frame, marks } => self.report(frame, marks.as_slice())?,
        }
        Ok(())
    }

    fn line(&mut self, number: u64, line: &str) -> Result<(), AllocError> {
        let text = line.trim();
        if text.is_empty() || text.starts_with('#') {
            return Ok(());
        }
        match Command::read(self.heap, text) {
            Ok(command) => self.act(command),
            Err(NoCommand::Expected(what)) => writeln!(self.out, "line {number}: expected {what}"),
            Err(NoCommand::Memory) => Err(AllocError),
        }
    }
}

// Runs the script on standard input and prints what happens.
pub fn run(rt: &HostRuntime) -> io::Result<()> {
    let heap = rt.alloc();
    let mut script = Script::new(heap)?;
    let lines = BufReader::new(heap, rt.stdin())?.split(heap, b'\n');
    for (line, number) in lines.zip(1..) {
        let text = String::from_utf8_lossy(heap, line?.as_slice())?;
        script.line(number, text.as_str())?;
        rt.print(script.out.as_str())?;
        // one long answer's memory is not kept for the rest of the script
        script.out = String::new(heap);
    }
    println!(rt; "{}", script.totals)
}
