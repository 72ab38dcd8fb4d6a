// Texts of what is known of a place.
use head::head::look::View;
use rules::alarm::{Alarms, Cause};
use rules::job::Job;
use rules::row::{Phase, Row};
use std::fmt;

// A value, or none.
#[derive(Clone, Copy)]
struct Maybe<T>(Option<T>);

#[derive(Clone, Copy)]
struct ShownJob(Job);

#[derive(Clone, Copy)]
struct ShownPhase(Phase);

#[derive(Clone, Copy)]
struct ShownCause(Cause);

#[derive(Clone, Copy)]
struct ShownAlarms(Alarms);

// What the operator sees of a filled place.
#[derive(Clone, Copy)]
pub struct ShownView<'a>(pub &'a View);

// All that is kept of a place.
#[derive(Clone, Copy)]
pub struct ShownRow<'a> {
    pub place: u64,
    pub row: &'a Row,
}

impl<T: fmt::Display> fmt::Display for Maybe<T> {
    fn fmt<W: fmt::Write>(&self, f: &mut fmt::Formatter<W>) -> fmt::Result {
        match &self.0 {
            Some(value) => write!(f, "{value}"),
            None => f.write_str("none"),
        }
    }
}

impl fmt::Display for ShownJob {
    fn fmt<W: fmt::Write>(&self, f: &mut fmt::Formatter<W>) -> fmt::Result {
        f.write_str(match self.0 {
            Job::BringUp => "BringUp",
            Job::Tell => "Tell",
            Job::Stop => "Stop",
            Job::Hold => "Hold",
            Job::Free => "Free",
        })
    }
}

impl fmt::Display for ShownPhase {
    fn fmt<W: fmt::Write>(&self, f: &mut fmt::Formatter<W>) -> fmt::Result {
        f.write_str(match self.0 {
            Phase::Empty => "Empty",
            Phase::Held => "Held",
            Phase::Waiting => "Waiting",
            Phase::InService => "InService",
        })
    }
}

impl fmt::Display for ShownCause {
    fn fmt<W: fmt::Write>(&self, f: &mut fmt::Formatter<W>) -> fmt::Result {
        f.write_str(match self.0 {
            Cause::Los => "LOS",
            Cause::Lcd => "LCD",
            Cause::Oaml => "OAML",
            Cause::Cpe => "CPE",
        })
    }
}

// The names of those that stand, with commas between.
impl fmt::Display for ShownAlarms {
    fn fmt<W: fmt::Write>(&self, f: &mut fmt::Formatter<W>) -> fmt::Result {
        let alarms = self.0;
        let mut before = "";
        for (stands, name) in [
            (alarms.los, "LOS"),
            (alarms.lcd, "LCD"),
            (alarms.oaml, "OAML"),
            (alarms.cpe, "CPE"),
            (alarms.suf, "SUF"),
        ] {
            if stands {
                write!(f, "{before}{name}")?;
                before = ",";
            }
        }
        f.write_str(if before.is_empty() { "none" } else { "" })
    }
}

impl fmt::Display for ShownView<'_> {
    fn fmt<W: fmt::Write>(&self, f: &mut fmt::Formatter<W>) -> fmt::Result {
        let view = self.0;
        let serial = view.serial.value();
        let phase = ShownPhase(view.phase);
        let delay = Maybe(view.delay.map(|delay| delay.value()));
        let alarms = ShownAlarms(view.alarms);
        let cause = Maybe(view.cause.map(ShownCause));
        let failures = view.failures;
        write!(
            f,
            "serial={serial:016x} phase={phase} delay={delay} alarms={alarms} cause={cause} failures={failures}"
        )
    }
}

// An empty place has nothing more to tell.
impl fmt::Display for ShownRow<'_> {
    fn fmt<W: fmt::Write>(&self, f: &mut fmt::Formatter<W>) -> fmt::Result {
        let ShownRow { place, row } = *self;
        if !row.is_filled() {
            return write!(f, "{place} empty");
        }
        let serial = row.serial.value();
        let phase = ShownPhase(row.phase);
        let running = Maybe(row.running.map(ShownJob));
        let next = Maybe(row.next.map(ShownJob));
        let delay = Maybe(row.delay);
        let alarms = ShownAlarms(row.alarms);
        let cause = Maybe(row.cause.map(ShownCause));
        write!(
            f,
            "{place} serial={serial:016x} phase={phase} running={running} next={next} "
        )?;
        write!(f, "delay={delay} alarms={alarms} cause={cause} ")?;
        let (dark, broken, missed) = (row.counts.dark, row.counts.broken, row.counts.missed);
        let (failures, since) = (row.failures, row.since);
        write!(
            f,
            "dark={dark} broken={broken} missed={missed} failures={failures} since={since}"
        )
    }
}
