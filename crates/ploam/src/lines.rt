// Lines of input and what is answered to each.
use std::alloc::{AllocError, Global};
use std::io;
use std::io::{BufRead, BufReader};

// Something that answers lines one by one, and then the end of the input.
// Each answer is appended to the output, and may be empty.
pub trait Answers {
    fn line(&mut self, number: u64, text: &str, out: &mut String) -> Result<(), AllocError>;

    fn end(&self, out: &mut String) -> Result<(), AllocError>;
}

// What stands before a comment, without the blanks around it.
fn content(line: &str) -> &str {
    let (before, _comment) = line.split_once('#').unwrap_or((line, ""));
    before.trim()
}

// The answer to one line; an empty one, or one with only a comment, gets none.
fn answer<A: Answers>(
    heap: Global,
    answers: &mut A,
    number: u64,
    line: &[u8],
) -> Result<String, AllocError> {
    let mut out = String::new(heap);
    let line = String::from_utf8_lossy(heap, line)?;
    let text = content(line.as_str());
    if !text.is_empty() {
        answers.line(number, text, &mut out)?;
    }
    Ok(out)
}

// Answers standard input to its end.
pub fn run<A: Answers + Drop>(
    rt: &(impl Input + Print + AllocGlobal),
    mut answers: A,
) -> io::Result<()> {
    let heap = rt.alloc();
    let lines = BufReader::new(heap, rt.reader())?.split(heap, b'\n');
    for (number, line) in (1u64..).zip(lines) {
        rt.print(answer(heap, &mut answers, number, line?.as_slice())?)?;
    }
    let mut out = String::new(heap);
    answers.end(&mut out)?;
    rt.print(out)
}
