// Holds stored vectors of another implementation against this one.
#![tactic(auto)]

use crate::tally::Tally;
use crate::vector::Vector;
use std::io;
use std::io::{BufRead, BufReader};

mod answer;
mod tally;
mod vector;

fn main(rt: HostRuntime) -> io::Result<()> {
    let heap = rt.alloc();
    let mut tally = Tally::default();
    let lines = BufReader::new(heap, rt.stdin())?.lines(heap);
    for (number, line) in (1u64..).zip(lines) {
        let line = line?;
        if !tally.vector(heap, Vector::from(line.as_str()))? {
            println!(rt; "line {number} differs: {line}")?;
        }
    }
    rt.println(tally)
}
