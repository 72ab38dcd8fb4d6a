// Scenarios run line by line.
use crate::command::{Command, Drive, Plug, Work};
use crate::floor::Floor;
use crate::work::work;
use ports::tree::{PORTS, Tree};
use std::alloc::{AllocError, Global};
use std::io::{BufRead, BufReader};
use std::{io, mem};
use tree_script::shown::ShownOnu;
use tree_script::words::NoCommand;

pub struct Script {
    heap: Global,
    // of the scenario under way
    name: String,
    // what was built before the first call
    plant: Tree,
    floor: Option<Floor>,
    progress: bool,
}

impl Script {
    pub fn new(heap: Global) -> Result<Script, AllocError> {
        Ok(Script {
            heap,
            name: String::from_str(heap, "scenario")?,
            plant: Tree::new(heap)?,
            floor: None,
            progress: false,
        })
    }

    // The head is new, and the plant that was built stands before it.
    fn begin(&mut self) -> Result<(), AllocError> {
        if self.floor.is_some() {
            return Ok(());
        }
        let next = Tree::new(self.heap)?;
        let plant = mem::replace(&mut self.plant, next);
        let floor = Floor::new(self.heap, plant)?;
        if let Some(old) = self.floor.replace(floor) {
            old.close();
        }
        Ok(())
    }

    // The scenario under way is over.
    fn end(&mut self, rt: &impl Print) -> io::Result<()> {
        match self.floor.take() {
            None => Ok(()),
            Some(mut floor) => {
                let told = floor.finish(rt, self.name.as_str());
                floor.close();
                told
            }
        }
    }

    fn scenario(&mut self, rt: &impl Print, name: String) -> io::Result<()> {
        self.end(rt)?;
        self.name = name;
        self.plant = Tree::new(self.heap)?;
        let name = self.name.as_str();
        println!(rt; "scenario {name}")
    }

    fn show(&self, rt: &impl Print) -> io::Result<()> {
        let plant = self
            .floor
            .as_ref()
            .map_or(&self.plant, |floor| floor.plant());
        for port in 0..PORTS {
            if let Some(onu) = plant.look(port) {
                let onu = ShownOnu(&onu);
                println!(rt; "port {port} {onu}")?;
            }
        }
        Ok(())
    }

    // A command to a line that is driven.
    fn drive(&mut self, rt: &impl Print, drive: Drive) -> io::Result<()> {
        self.begin()?;
        let progress = self.progress;
        match &mut self.floor {
            Some(floor) => floor.drive(rt, drive, progress),
            None => Ok(()),
        }
    }

    // No ONU is put in once the head was called.
    fn plug(&mut self, rt: &impl Print, number: u64, onu: Plug) -> io::Result<()> {
        if self.floor.is_some() {
            return println!(rt; "line {number}: expected no ONU after the first call");
        }
        let Plug { port, serial, trip } = onu;
        self.plant.plug(port, serial, trip);
        Ok(())
    }

    fn work(&mut self, task: Work) {
        match &mut self.floor {
            None => work(&mut self.plant, task),
            Some(floor) => floor.work(task),
        }
    }

    fn act(&mut self, rt: &impl Print, number: u64, command: Command) -> io::Result<()> {
        match command {
            Command::Scenario(name) => self.scenario(rt, name),
            Command::Plug(onu) => self.plug(rt, number, onu),
            Command::Work(task) => {
                self.work(task);
                Ok(())
            }
            Command::Show => self.show(rt),
            Command::Progress(on) => {
                self.progress = on;
                Ok(())
            }
            Command::Drive(drive) => self.drive(rt, drive),
        }
    }

    fn line(&mut self, rt: &impl Print, number: u64, line: &str) -> io::Result<()> {
        let text = line.trim();
        if text.is_empty() || text.starts_with('#') {
            return Ok(());
        }
        match Command::read(self.heap, text) {
            Ok(command) => self.act(rt, number, command),
            Err(NoCommand::Expected(what)) => println!(rt; "line {number}: expected {what}"),
            Err(NoCommand::Memory) => Err(AllocError.into()),
        }
    }

    fn read(&mut self, rt: &(impl Input + Print)) -> io::Result<()> {
        let heap = self.heap;
        let lines = BufReader::new(heap, rt.reader())?.split(heap, b'\n');
        for (number, line) in (1u64..).zip(lines) {
            let text = String::from_utf8_lossy(heap, line?.as_slice())?;
            self.line(rt, number, text.as_str())?;
        }
        self.end(rt)
    }

    fn close(self) {
        let Script {
            heap: _,
            name,
            plant,
            floor,
            progress: _,
        } = self;
        drop(name);
        drop(plant);
        if let Some(floor) = floor {
            floor.close();
        }
    }
}

// Runs the scenarios on standard input and prints what happens.
pub fn run(rt: &(impl Input + Print + AllocGlobal)) -> io::Result<()> {
    let mut script = Script::new(rt.alloc())?;
    let answer = script.read(rt);
    script.close();
    answer
}
