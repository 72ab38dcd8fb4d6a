// Equal grants that follow one another: `5*3`, or `idle` for a single one.
ghost use Rattle.std.specs.Prelude.{Some};
ghost use Rattle.readable.specs.Shown.{grant_name, run_text, grants_text};

use crate::show::Text;
use field::grant::Grant;
use std::fmt;

#[derive(Clone, Copy)]
pub struct Run {
    pub grant: Grant,
    pub count: usize,
}

impl fmt::Display for Text<Grant> {
    ghost output = { λ grant. Some (grant_name grant.0) };

    fn fmt<W: fmt::Write>(&self, f: &mut fmt::Formatter<W>) -> fmt::Result {
        match self.0 {
            Grant::Code(code) => write!(f, "{}", code.value()),
            Grant::Ranging => f.write_str("ranging"),
            Grant::Unassigned => f.write_str("unassigned"),
            Grant::Idle => f.write_str("idle"),
        }
    }
}

// The grant, and how often it stands there if that is more than once.
impl fmt::Display for Run {
    ghost output = { λ run. Some (run_text run.grant run.count) };

    fn fmt<W: fmt::Write>(&self, f: &mut fmt::Formatter<W>) -> fmt::Result {
        let grant = Text(self.grant);
        match self.count {
            1 => write!(f, "{grant}"),
            count => write!(f, "{grant}*{count}"),
        }
    }
}

// Each run of equal grants once: `5*3,69,idle*2`.
impl fmt::Display for Text<&[Grant]> {
    ghost output = { λ grants. Some (grants_text grants.0.now) };

    fn fmt<W: fmt::Write>(&self, f: &mut fmt::Formatter<W>) -> fmt::Result {
        let Some((first, rest)) = self.0.split_first() else {
            return Ok(());
        };
        let mut run = Run {
            grant: *first,
            count: 1,
        };
        for grant in rest {
            if *grant == run.grant {
                run.count += 1;
            } else {
                write!(f, "{run},")?;
                run = Run {
                    grant: *grant,
                    count: 1,
                };
            }
        }
        write!(f, "{run}")
    }
}
