// Lines of input, and what is answered to each.
use crate::call::{Call, NoCall};
use crate::session::Session;
use crate::shown::{ShownRow, ShownView};
use head::head::look::View;
use head::refusal::Refusal;
use keyed::hex::Digits;
use std::alloc::{AllocError, Global};
use std::io::{BufRead, BufReader};
use std::num::Saturating;
use std::{fmt, io, mem};

// What a call answers, but for a dump.
#[derive(Drop)]
enum Answer {
    Ok,
    Done,
    Seen(Option<View>),
    // the number of the frame, and its bytes
    Sent(u64, Vec<u8>),
    Refused(Refusal),
}

impl fmt::Display for Answer {
    fn fmt<W: fmt::Write>(&self, f: &mut fmt::Formatter<W>) -> fmt::Result {
        match self {
            Answer::Ok => f.write_str("ok"),
            Answer::Done => f.write_str("done"),
            Answer::Seen(None) => f.write_str("empty"),
            Answer::Seen(Some(view)) => write!(f, "{}", ShownView(view)),
            Answer::Sent(frame, bytes) => write!(f, "docket {frame} {}", Digits(bytes.as_slice())),
            Answer::Refused(why) => write!(f, "refused {}", why.number()),
        }
    }
}

impl Answer {
    // The answer to an operator's call.
    fn of(outcome: Result<(), Refusal>) -> Answer {
        match outcome {
            Ok(()) => Answer::Ok,
            Err(why) => Answer::Refused(why),
        }
    }
}

fn sent(session: &mut Session, heap: Global, length: usize) -> Result<Answer, AllocError> {
    let mut buffer = vec![in heap; 0; length]?;
    match session.send(buffer.as_mut_slice()) {
        Ok(frame) => Ok(Answer::Sent(frame, buffer)),
        Err(why) => Ok(Answer::Refused(why)),
    }
}

fn settled(session: &mut Session, report: &[u8]) -> Answer {
    match session.settle(report) {
        Ok(()) => Answer::Done,
        Err(why) => Answer::Refused(why),
    }
}

fn looked(session: &Session, place: u64) -> Answer {
    match session.look(place) {
        Ok(view) => Answer::Seen(view),
        Err(why) => Answer::Refused(why),
    }
}

// A line for each place.
fn dump(session: &Session, out: &mut String) -> Result<(), AllocError> {
    for place in 0..64 {
        if let Ok(row) = session.row(place) {
            writeln!(out, "{}", ShownRow { place, row: &row })?;
        }
    }
    Ok(())
}

// Makes the call and appends its answer.
fn act(
    session: &mut Session,
    heap: Global,
    call: Call,
    out: &mut String,
) -> Result<(), AllocError> {
    let answer = match call {
        Call::SetUp {
            guard,
            pattern,
            first,
            calendar,
        } => Answer::of(session.set_up(guard, pattern, first, calendar.as_slice())),
        Call::Enter { place, serial } => Answer::of(session.enter(place, serial)),
        Call::Hold(place) => Answer::of(session.hold(place)),
        Call::Release(place) => Answer::of(session.release(place)),
        Call::Look(place) => looked(session, place),
        Call::Send(length) => sent(session, heap, length)?,
        Call::Settle(report) => settled(session, report.as_slice()),
        Call::Dump => return dump(session, out),
    };
    writeln!(out, "{answer}")
}

// A session, and how many of its lines were read.
struct Script {
    session: Session,
    lines: Saturating<u64>,
}

impl Script {
    fn new() -> Script {
        Script {
            session: Session::new(),
            lines: Saturating(0),
        }
    }

    // Appends what is answered to the next line: nothing to a blank one or a remark.
    fn line(&mut self, heap: Global, line: &str, out: &mut String) -> Result<(), AllocError> {
        self.lines += 1;
        if line.trim_ascii().is_empty() || line.starts_with('#') {
            return Ok(());
        }
        match Call::read(heap, line) {
            Ok(call) => act(&mut self.session, heap, call, out),
            Err(NoCall::Expected(what)) => writeln!(out, "? line {}: {what}", self.lines),
            Err(NoCall::Memory) => Err(AllocError),
        }
    }

    fn end(self) {
        let Script { session, lines: _ } = self;
        session.end();
    }
}

// A script's first line, where several follow each other.
const NEXT: &str = "## new head";

// Answers standard input to its end.
fn answer_all(rt: &HostRuntime, script: &mut Script) -> io::Result<()> {
    let heap = rt.alloc();
    let mut out = String::new(heap);
    for line in BufReader::new(heap, rt.reader())?.split(heap, b'\n') {
        let text = String::from_utf8_lossy(heap, line?.as_slice())?;
        if text.as_str() == NEXT {
            mem::replace(script, Script::new()).end();
        } else {
            script.line(heap, text.as_str(), &mut out)?;
        }
        rt.print(out.as_str())?;
        out.clear();
    }
    Ok(())
}

// Answers the calls on standard input; each of several scripts has a head of its own.
pub fn run(rt: &HostRuntime) -> io::Result<()> {
    let mut script = Script::new();
    let outcome = answer_all(rt, &mut script);
    script.end();
    outcome
}
