// How many vectors there were, and how many were answered otherwise.
use crate::answer::Answer;
use crate::vector::{Kind, Vector};
use keyed::hex::{self, NotHex};
use std::alloc::{AllocError, Global};
use std::fmt;
use std::num::Saturating;

#[derive(Clone, Copy, Default)]
pub struct Tally {
    checks: Saturating<u64>,
    cells: Saturating<u64>,
    frames: Saturating<u64>,
    upstream: Saturating<u64>,
    differ: Saturating<u64>,
}

impl fmt::Display for Tally {
    fn fmt<W: fmt::Write>(&self, f: &mut fmt::Formatter<W>) -> fmt::Result {
        let Tally {
            checks,
            cells,
            frames,
            upstream,
            differ,
        } = *self;
        write!(
            f,
            "{checks} check bytes, {cells} cells, {frames} frames, {upstream} upstream messages: {differ} differ"
        )
    }
}

impl Tally {
    fn count(&mut self, kind: Kind) {
        match kind {
            Kind::Check => self.checks += 1,
            Kind::Cell => self.cells += 1,
            Kind::Frame => self.frames += 1,
            Kind::Upstream => self.upstream += 1,
        }
    }

    // Whether the answer to a vector's bytes is the one that it has.
    fn same(&mut self, heap: Global, vector: Vector<'_>) -> Result<bool, AllocError> {
        let Some(kind) = vector.kind else {
            return Ok(false);
        };
        let bytes = match hex::bytes(heap, vector.digits) {
            Ok(bytes) => bytes,
            Err(NotHex::Digits) => return Ok(false),
            Err(NotHex::Memory) => return Err(AllocError),
        };
        self.count(kind);
        let answer = Answer::new(heap, kind, bytes.as_slice())?;
        Ok(answer.text.as_str() == vector.text && answer.again.as_str() == vector.again)
    }

    // Counts a vector, and says whether its bytes are answered as stored.
    pub fn vector(&mut self, heap: Global, vector: Vector<'_>) -> Result<bool, AllocError> {
        let same = self.same(heap, vector)?;
        if !same {
            self.differ += 1;
        }
        Ok(same)
    }
}
