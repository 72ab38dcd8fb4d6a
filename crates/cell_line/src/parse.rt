// A line of text read as a cell. What is read is what `readable::show` prints, with any blanks between the words.
ghost use Rattle.std.specs.Prelude.{◌≡◌, ◌+◌, ◌<◌, ◌≤◌, ◌++◌, IfOk, MatchOption, replicate, take};
ghost use Rattle.readable.specs.Shown.{grants_text};
ghost use Rattle.keyed.specs.Words.{AreWords};
ghost use Rattle.cell_line.specs.Line.{cell_words};

use crate::line::Cell;
use crate::parse::words::Words;
use crate::run::read_run;
use crate::wanted::Wanted;
use field::grant::Grant;
use keyed::key::Key;
use readable::run::Run;
use std::str::FromStr;

mod downstream;
pub(crate) mod value;
mod words;

// Writes one grant to so many places from one on, and gives the place after those; none if the cell has no room for them.
fn write_run(grants: &mut [Grant; 27], from: usize, run: Run) -> Option<usize>
    requires { from ≤ 27 }
    ensures { MatchOption result (27 < from + run.count) (λ end. (end ≡ from + run.count) × (end ≤ 27) × (take end grants.new ≡ take from grants.old ++ replicate run.count run.grant)) }
{
    let end = from.checked_add(run.count)?;
    if end > 27 {
        return None;
    }
    for place in from..end {
        grants[place] = run.grant;
    }
    Some(end)
}

// A list of runs, each of another grant than the one before it.
fn grants(list: &str) -> Result<[Grant; 27], Wanted>
    ensures { IfOk result (λ grants. grants_text grants ≡ list.now) }
{
    let mut grants = [Grant::Idle; 27];
    let mut filled = 0;
    let mut last = None;
    for part in list.split(',') {
        let run = read_run(part)?;
        if last == Some(run.grant) {
            return Err(Wanted::JoinedRun);
        }
        filled = write_run(&mut grants, filled, run).ok_or(Wanted::AllGrants)?;
        last = Some(run.grant);
    }
    if filled == 27 {
        Ok(grants)
    } else {
        Err(Wanted::AllGrants)
    }
}

impl FromStr for Cell {
    type Err = Wanted;

    ghost from_str_gives = { λ line read. IfOk read (λ cell. AreWords line (cell_words cell.first cell.grants cell.message)) };

    fn from_str(line: &str) -> Result<Cell, Wanted> {
        let mut words = Words::new(line);
        let Some("cell") = words.next() else {
            return Err(Wanted::Cell);
        };
        let first = words.field(Key::Bit)?;
        let grants = grants(words.text(Key::Grants).ok_or(Wanted::GrantList)?)?;
        let kind = words.field(Key::Message)?;
        let message = words.message(kind)?;
        match words.next() {
            None => Ok(Cell {
                first,
                grants,
                message,
            }),
            Some(_) => Err(Wanted::LineEnd),
        }
    }
}
