// Sends and settles the frames of a full line: without arguments a few rounds of them, and with a number so many,
// timed. What was sent is summed up, so that another head can be held against it.
#![tactic(auto)]

mod full;

use crate::full::Full;
use std::rt::Env;
use std::time::Instant;
use std::{env, io};

// The number that is the only argument, if one is given.
fn count(rt: &(impl Env + Alloc)) -> io::Result<Option<u64>> {
    let word = env::args(rt)?.nth(1);
    Ok(word.and_then(|word| word.as_str().parse::<u64>().ok()))
}

// Measures so many frames, and prints how many nanoseconds they took.
fn measure(rt: &HostRuntime, full: &mut Full, frames: u64) -> io::Result<()> {
    full.frames(4096);
    let begin = Instant::now(rt)?;
    full.frames(frames);
    let time = begin.elapsed(rt)?.as_nanos();
    let sum = full.sum();
    println!(rt; "{frames} {time} {sum:016x}")
}

// Without a number, a few thousand frames.
fn work(rt: &HostRuntime, full: &mut Full) -> io::Result<()> {
    if let Some(frames) = count(rt)? {
        return measure(rt, full, frames);
    }
    full.frames(6000);
    let (serving, sum) = (full.serving(), full.sum());
    println!(rt; "{serving} in service, {sum:016x}")
}

fn main(rt: HostRuntime) -> io::Result<()> {
    let mut full = Full::new();
    let outcome = work(&rt, &mut full);
    full.end();
    outcome
}
