// What the operator sees of a place.
ghost use Rattle.std.specs.Prelude.{◌≡◌};
ghost use Rattle.head.specs.Steps.{fresh, view_of, look_answer, row_answer};

use crate::head::Head;
use crate::refusal::Refusal;
use crate::table::Table;
use field::bounded::Guard;
use field::delay::Delay;
use field::number::SerialNumber;
use field::octets::Octets;
use rules::alarm::{Alarms, Cause};
use rules::row::{Phase, Row};
use rules::settings::Settings;
use rules::slot::NOBODY;

#[derive(Clone, Copy)]
pub struct View {
    pub serial: SerialNumber,
    pub phase: Phase,
    pub delay: Option<Delay>,
    pub alarms: Alarms,
    pub cause: Option<Cause>,
    // rounds that failed with light
    pub failures: u64,
}

impl View {
    // None of an empty place.
    fn of(row: &Row) -> Option<View>
        ensures { result ≡ view_of row.now }
    {
        row.is_filled().then(|| View {
            serial: row.serial,
            phase: row.phase,
            delay: row.delay.and_then(|bits| Delay::new(u64::from(bits))),
            alarms: row.alarms,
            cause: row.cause,
            failures: row.failures,
        })
    }
}

impl Head {
    // A head that was never set up: guard 4, an empty pattern and calendar, frame 0.
    pub fn new() -> Head
        ensures { result ≡ fresh }
    {
        Head {
            table: Table::empty(),
            settings: Settings::new(),
            frame: 0,
            out: 0,
            started: false,
        }
    }

    // All that is kept of a place, filled or empty.
    pub fn row(&self, place: u64) -> Result<Row, Refusal>
        ensures { result ≡ row_answer self.now place }
    {
        if place < 64 {
            Ok(self.table.rows[place as usize])
        } else {
            Err(Refusal::Place)
        }
    }

    // What is known of a place; none if it is empty.
    pub fn look(&self, place: u64) -> Result<Option<View>, Refusal>
        ensures { result ≡ look_answer self.now place }
    {
        self.row(place).map(|row| View::of(&row))
    }
}
