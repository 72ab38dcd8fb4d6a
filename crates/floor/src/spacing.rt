// How near bursts come to each other at the head's receiver.
use field::bounded::Guard;
use plant::burst::Burst;
use std::alloc::{AllocError, Global};
use std::cmp::Reverse;
use std::collections::BinaryHeap;

#[derive(Drop)]
pub struct Spacing {
    // first bit times of bursts that an earlier one may still come before
    starts: BinaryHeap<Reverse<u64>>,
    // of the last burst before those
    last: Option<u64>,
    smallest: Option<i64>,
}

// Bits from the end of one burst to the start of the next; below 0 where they overlap.
fn distance(start: u64, next: u64, guard: Guard) -> i64 {
    let long = 448 - i64::from(guard.value());
    let apart = i64::try_from(next.saturating_sub(start)).unwrap_or(i64::MAX);
    apart.saturating_sub(long)
}

impl Spacing {
    pub fn new(heap: Global) -> Spacing {
        Spacing {
            starts: BinaryHeap::new(heap),
            last: None,
            smallest: None,
        }
    }

    pub fn smallest(&self) -> Option<i64> {
        self.smallest
    }

    fn follow(&mut self, start: u64, guard: Guard) {
        if let Some(last) = self.last {
            let distance = distance(last, start, guard);
            self.smallest = Some(self.smallest.map_or(distance, |least| least.min(distance)));
        }
        self.last = Some(start);
    }

    // No burst that starts before a bit time is to come any more.
    pub fn pass(&mut self, until: u64, guard: Guard) {
        for _ in 0..self.starts.len() {
            match self.starts.peek() {
                Some(Reverse(start)) if *start < until => {}
                _ => return,
            }
            if let Some(Reverse(start)) = self.starts.pop() {
                self.follow(start, guard);
            }
        }
    }

    pub fn hear(&mut self, burst: &Burst) -> Result<(), AllocError> {
        self.starts.push(Reverse(burst.start))?;
        Ok(())
    }
}
