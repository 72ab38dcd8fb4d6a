// What is seen of a place, and what changes there.
use field::delay::Delay;
use head::head::look::View;
use report::offset::Offset;
use report::record::{Light, Record};
use rules::alarm::{Alarms, Cause};
use rules::row::Phase;
use std::fmt;

#[derive(Clone, Copy)]
pub struct ShownPhase(pub Phase);

impl fmt::Display for ShownPhase {
    fn fmt<W: fmt::Write>(&self, f: &mut fmt::Formatter<W>) -> fmt::Result {
        f.write_str(match self.0 {
            Phase::Empty => "empty",
            Phase::Held => "held",
            Phase::Waiting => "waiting",
            Phase::InService => "in service",
        })
    }
}

#[derive(Clone, Copy)]
pub struct ShownAlarms(pub Alarms);

impl fmt::Display for ShownAlarms {
    fn fmt<W: fmt::Write>(&self, f: &mut fmt::Formatter<W>) -> fmt::Result {
        let Alarms {
            los,
            lcd,
            oaml,
            cpe,
            suf,
        } = self.0;
        if self.0 == Alarms::none() {
            return f.write_str(" none");
        }
        f.write_str(if los { " LOS" } else { "" })?;
        f.write_str(if lcd { " LCD" } else { "" })?;
        f.write_str(if oaml { " OAML" } else { "" })?;
        f.write_str(if cpe { " CPE" } else { "" })?;
        f.write_str(if suf { " SUF" } else { "" })
    }
}

#[derive(Clone, Copy)]
pub struct ShownCause(pub Cause);

impl fmt::Display for ShownCause {
    fn fmt<W: fmt::Write>(&self, f: &mut fmt::Formatter<W>) -> fmt::Result {
        f.write_str(match self.0 {
            Cause::Los => "loss of signal",
            Cause::Lcd => "loss of cell delineation",
            Cause::Oaml => "PLOAM cells missing",
            Cause::Cpe => "cell phase error",
        })
    }
}

// The delay of a place, if it has one.
#[derive(Clone, Copy)]
struct ShownDelay(Option<Delay>);

impl fmt::Display for ShownDelay {
    fn fmt<W: fmt::Write>(&self, f: &mut fmt::Formatter<W>) -> fmt::Result {
        match self.0 {
            Some(delay) => write!(f, ", delay {}", delay.value()),
            None => f.write_str(", no delay"),
        }
    }
}

// What ended its service, if anything did.
#[derive(Clone, Copy)]
struct ShownReason(Option<Cause>);

impl fmt::Display for ShownReason {
    fn fmt<W: fmt::Write>(&self, f: &mut fmt::Formatter<W>) -> fmt::Result {
        match self.0 {
            Some(cause) => write!(f, ", cause: {}", ShownCause(cause)),
            None => Ok(()),
        }
    }
}

#[derive(Clone, Copy)]
pub struct ShownView<'a>(pub &'a View);

impl fmt::Display for ShownView<'_> {
    fn fmt<W: fmt::Write>(&self, f: &mut fmt::Formatter<W>) -> fmt::Result {
        let view = self.0;
        let (serial, phase) = (view.serial.value(), ShownPhase(view.phase));
        let delay = ShownDelay(view.delay);
        write!(f, "serial {serial:016x} {phase}{delay}")?;
        let (alarms, failures) = (ShownAlarms(view.alarms), view.failures);
        let reason = ShownReason(view.cause);
        write!(f, ", alarms{alarms}, failures {failures}{reason}")
    }
}

// What happened at a place.
#[derive(Clone, Copy)]
pub enum Happened {
    Phase(Phase),
    // service ended
    Ended { cause: Cause, alarms: Alarms },
    Measured { offset: Offset, delay: u64 },
    Alarms(Alarms),
    // rounds that failed with light
    Failures(u64),
}

impl Happened {
    // The phase that the place is in from then on, if that changed.
    pub fn phase(&self) -> Option<Phase> {
        match *self {
            Happened::Phase(phase) => Some(phase),
            Happened::Ended { .. } => Some(Phase::Waiting),
            _ => None,
        }
    }

    // Whether it is drawn in the picture of the place's life.
    pub fn is_drawn(&self) -> bool {
        self.phase().is_some() || matches!(self, Happened::Measured { .. })
    }
}

// The end of a service.
#[derive(Clone, Copy)]
struct Ended {
    cause: ShownCause,
    alarms: ShownAlarms,
}

impl fmt::Display for Ended {
    fn fmt<W: fmt::Write>(&self, f: &mut fmt::Formatter<W>) -> fmt::Result {
        let Ended { cause, alarms } = self;
        write!(f, "out of service, alarms{alarms}, cause: {cause}")
    }
}

// A delay that was measured.
#[derive(Clone, Copy)]
struct Measured {
    offset: Offset,
    delay: u64,
}

impl fmt::Display for Measured {
    fn fmt<W: fmt::Write>(&self, f: &mut fmt::Formatter<W>) -> fmt::Result {
        let Measured { offset, delay } = self;
        write!(f, "measured offset {offset} delay {delay}")
    }
}

impl fmt::Display for Happened {
    fn fmt<W: fmt::Write>(&self, f: &mut fmt::Formatter<W>) -> fmt::Result {
        match *self {
            Happened::Phase(phase) => write!(f, "{}", ShownPhase(phase)),
            Happened::Ended { cause, alarms } => write!(
                f,
                "{}",
                Ended {
                    cause: ShownCause(cause),
                    alarms: ShownAlarms(alarms)
                }
            ),
            Happened::Measured { offset, delay } => { write!(f, "{}", Measured { offset, delay }) }
            Happened::Alarms(alarms) => write!(f, "alarms{}", ShownAlarms(alarms)),
            Happened::Failures(failures) => {
                write!(f, "round failed with light, failures {failures}")
            }
        }
    }
}

// A place before and after something.
#[derive(Clone, Copy)]
pub struct Change<'a> {
    pub before: &'a Option<View>,
    pub after: &'a View,
    // what ended its window in the frame that was settled
    pub heard: Option<&'a Record>,
}

impl Change<'_> {
    fn phase_before(&self) -> Phase {
        self.before.map_or(Phase::Empty, |view| view.phase)
    }

    fn failures_before(&self) -> u64 {
        self.before.map_or(0, |view| view.failures)
    }

    fn alarms_before(&self) -> Alarms {
        self.before.map_or(Alarms::none(), |view| view.alarms)
    }

    fn phase(&self) -> Option<Happened> {
        let View {
            phase,
            cause,
            alarms,
            ..
        } = *self.after;
        match (self.phase_before(), phase, cause) {
            (Phase::InService, Phase::Waiting, Some(cause)) => {
                Some(Happened::Ended { cause, alarms })
            }
            (before, now, _) => (before != now).then_some(Happened::Phase(now)),
        }
    }

    fn failures(&self) -> Option<Happened> {
        let failures = self.after.failures;
        (failures > self.failures_before()).then_some(Happened::Failures(failures))
    }

    // Its round gave it this delay.
    fn measured(&self) -> Option<Happened> {
        let record = self.heard?;
        let delay = self.after.delay?.value();
        let bits = match record.offset {
            Offset::Early(bits) => bits,
            Offset::Late(0) => 0,
            Offset::Late(_) => return None,
        };
        let failed = self.after.failures > self.failures_before();
        let here = record.light == Light::Ploam && u64::from(bits) == delay;
        let offset = record.offset;
        (here && !failed && self.after.phase == Phase::Waiting).then_some(Happened::Measured {
            offset,
            delay,
        })
    }

    // New alarms of a place that goes on waiting.
    fn alarms(&self) -> Option<Happened> {
        let alarms = self.after.alarms;
        let same = self.phase_before() == self.after.phase;
        (same && alarms != self.alarms_before()).then_some(Happened::Alarms(alarms))
    }

    // In the order in which they are told.
    pub fn all(&self) -> [Option<Happened>; 4] {
        [
            self.measured(),
            self.failures(),
            self.phase(),
            self.alarms(),
        ]
    }
}
