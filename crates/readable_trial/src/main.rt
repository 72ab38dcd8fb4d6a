// Reads each line of standard input as a cell and prints it again, or what was wanted in it.
// A line that begins with `hex` has bytes in its other words, which are printed as digits;
// one that begins with `upstream` has the twelve bytes of a message from an ONU, and with
// `downstream` those of one to ONUs.
#![tactic(auto)]

use cell_line::line::Cell;
use field::coded::Coded;
use keyed::hex::{self, NotHex};
use message::downstream::Downstream;
use readable::show;
use std::alloc::{AllocError, Global};
use std::io;
use std::io::{BufRead, BufReader};
use upstream::message::Upstream;

fn cell_again(heap: Global, line: &str) -> Result<String, AllocError> {
    let mut out = String::new(heap);
    match line.parse::<Cell>() {
        Ok(cell) => show::cell(&mut out, cell.first, &cell.grants, &cell.message)?,
        Err(wanted) => write!(out, "{wanted}")?,
    }
    Ok(out)
}

// Appends the message in the first twelve bytes, or why there is none.
fn push_upstream(out: &mut String, bytes: &[u8]) -> Result<(), AllocError> {
    let Some(twelve) = bytes.first_chunk() else {
        return out.push_str("too short");
    };
    match Upstream::read(twelve) {
        Ok(message) => uplink::message(out, &message),
        Err(fault) => uplink::fault(out, fault),
    }
}

// The same of a message to ONUs.
fn push_downstream(out: &mut String, bytes: &[u8]) -> Result<(), AllocError> {
    let Some(twelve) = bytes.first_chunk() else {
        return out.push_str("too short");
    };
    match Downstream::read(twelve) {
        Ok(message) => show::message(out, &message),
        Err(fault) => show::message_fault(out, fault),
    }
}

// What is said of the bytes of a line of digits.
fn bytes_again<F>(heap: Global, digits: &str, say: F) -> Result<String, AllocError>
where
    F: FnOnce(&mut String, &[u8]) -> Result<(), AllocError> + Drop,
    requires { F.IsAlwaysCallable say }
{
    let mut out = String::new(heap);
    match hex::bytes(heap, digits) {
        Ok(bytes) => say(&mut out, bytes.as_slice())?,
        Err(NotHex::Digits) => out.push_str("not hex")?,
        Err(NotHex::Memory) => return Err(AllocError),
    }
    Ok(out)
}

fn answer(heap: Global, line: &str) -> Result<String, AllocError> {
    match line.split_once(' ') {
        Some(("hex", digits)) => bytes_again(heap, digits, hex::push_digits),
        Some(("upstream", digits)) => bytes_again(heap, digits, push_upstream),
        Some(("downstream", digits)) => bytes_again(heap, digits, push_downstream),
        _ => cell_again(heap, line),
    }
}

fn main(rt: HostRuntime) -> io::Result<()> {
    let heap = rt.alloc();
    for line in BufReader::new(heap, rt.stdin())?.lines(heap) {
        rt.println(answer(heap, line?.as_str())?)?;
    }
    Ok(())
}
