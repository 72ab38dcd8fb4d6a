// What a line should have had where reading it stopped.
ghost use Rattle.std.specs.Prelude.{Some};
ghost use Rattle.cell_line.specs.Wanted.{wanted_text};

use keyed::key::Key;
use std::error::Error;
use std::fmt;

#[derive(Clone, Copy, Debug, PartialEq, Eq)]
pub enum Wanted {
    // the word with which each line begins
    Cell,
    // a key with 0 or 1
    Flag(Key),
    // a key with a number between two others
    Number { key: Key, low: u64, high: u64 },
    // a key with so many hex digits
    Digits { key: Key, count: usize },
    // one ONU or all
    Address,
    // who may take part in ranging
    Access,
    // the list of grants
    GrantList,
    // the name or code of a grant
    GrantName,
    // how many grants a run has
    RunLength,
    // one run for equal grants
    JoinedRun,
    // as many grants as a cell has
    AllGrants,
    // the name of a message
    MessageName,
    // nothing more
    LineEnd,
}

impl fmt::Display for Wanted {
    ghost output = { λ wanted. Some (wanted_text wanted) };

    fn fmt<W: fmt::Write>(&self, f: &mut fmt::Formatter<W>) -> fmt::Result {
        match *self {
            Wanted::Cell => f.write_str("expected cell"),
            Wanted::Flag(key) => write!(f, "expected {key}=0 or {key}=1"),
            Wanted::Number { key, low, high } => write!(f, "expected {key}={low}..{high}"),
            Wanted::Digits { key, count } => write!(f, "expected {key}={count} hex digits"),
            Wanted::Address => f.write_str("expected pon_id=0..63 or pon_id=all"),
            Wanted::Access => f.write_str("expected access=deny, access=allow or access=allow_all"),
            Wanted::GrantList => f.write_str("expected grants=.."),
            Wanted::GrantName => f.write_str(
                "expected a grant: 0..252, ranging, unassigned or idle",
            ),
            Wanted::RunLength => f.write_str("expected a run of 2..27 grants"),
            Wanted::JoinedRun => f.write_str("expected equal grants as one run"),
            Wanted::AllGrants => f.write_str("expected 27 grants"),
            Wanted::MessageName => f.write_str("expected a message name"),
            Wanted::LineEnd => f.write_str("expected the end of the line"),
        }
    }
}

impl Error for Wanted {}
