// Frames out and reports in.
use super::Floor;
use crate::command::{Drive, Traffic};
use crate::kept::records;
use crate::tally::Phases;
use driver::halt::Halt;
use std::alloc::AllocError;
use std::io;

impl Floor {
    // A frame that was sent in these bytes.
    fn sent(&mut self, frame: u64, buffer: &[u8; 96]) -> Result<(), AllocError> {
        self.next = frame.saturating_add(1);
        self.tally.frames += 1;
        self.kept.send(frame, buffer)?;
        let first = frame.saturating_mul(53);
        for burst in self.desk.line().bursts() {
            if burst.slot >= first {
                self.tally.bursts += 1;
                self.spacing.hear(burst)?;
            }
        }
        let end = self.next.saturating_mul(448 * 53);
        self.spacing.pass(end, self.settings.guard);
        Ok(())
    }

    // Whether a frame could be sent.
    fn send(&mut self, rt: &impl Print) -> io::Result<bool> {
        let mut buffer = [0; 96];
        match self.desk.send(&mut buffer) {
            Ok(frame) => {
                self.sent(frame, &buffer)?;
                Ok(true)
            }
            Err(Halt::Refused(why)) => {
                let (frame, answer) = (self.next, self.refused(why));
                println!(rt; "frame {frame}: send: {answer}")?;
                Ok(false)
            }
            Err(Halt::Room) => Err(AllocError.into()),
        }
    }

    // Settles the oldest frame that is out, and says which, if any is.
    fn settle(&mut self, rt: &impl Print) -> io::Result<Option<u64>> {
        let Some(frame) = self.desk.oldest() else {
            return Ok(None);
        };
        let marks = self.missed.marks(frame);
        let heard = records(frame, self.desk.line().bursts(), &marks);
        let _ = self.desk.settle(&marks);
        self.kept.settle(frame, heard);
        self.watch_settled(rt, frame, &heard)?;
        Ok(Some(frame))
    }

    // Settles the oldest frames until so many are out.
    fn settle_to(&mut self, rt: &impl Print, late: usize) -> io::Result<()> {
        for _ in late..self.desk.out() {
            self.settle(rt)?;
        }
        Ok(())
    }

    fn settle_newest(&mut self, rt: &impl Print) -> io::Result<()> {
        let frame = self.next;
        match self.desk.settle_newest(&[0; 53]) {
            Some(why) => {
                let answer = self.refused(why);
                println!(rt; "frame {frame}: settle newest: {answer}")
            }
            None => println!(rt; "frame {frame}: settle newest: fewer than two frames are out"),
        }
    }

    fn tell_progress(&self, rt: &impl Print) -> io::Result<()> {
        let (frame, bursts, phases) = (self.next, self.tally.bursts, Phases(&self.views));
        println!(rt; "frame {frame}: {phases}, bursts {bursts}")
    }

    fn run(&mut self, rt: &impl Print, frames: u64, late: usize, progress: bool) -> io::Result<()> {
        for _ in 0..frames {
            self.settle_to(rt, 3)?;
            if !self.send(rt)? {
                return Ok(());
            }
            self.settle_to(rt, late)?;
            if progress && self.next.is_multiple_of(1024) {
                self.tell_progress(rt)?;
            }
        }
        Ok(())
    }

    fn pass(&mut self, rt: &impl Print, traffic: Traffic, progress: bool) -> io::Result<()> {
        let frame = self.next;
        match traffic {
            Traffic::Run { frames, late } => self.run(rt, frames, late, progress),
            Traffic::Send => match self.send(rt)? {
                true => println!(rt; "frame {frame}: sent"),
                false => Ok(()),
            },
            Traffic::Settle => match self.settle(rt)? {
                Some(oldest) => println!(rt; "frame {oldest}: settled"),
                None => println!(rt; "frame {frame}: settle: no frame is out"),
            },
            Traffic::SettleNewest => self.settle_newest(rt),
        }
    }

    pub fn drive(&mut self, rt: &impl Print, drive: Drive, progress: bool) -> io::Result<()> {
        match drive {
            Drive::Call(call) => self.call(rt, &call),
            Drive::Traffic(traffic) => self.pass(rt, traffic, progress),
            Drive::Picture(frame) => self.picture(rt, frame),
            Drive::Svg { from, to } => self.svg(rt, from, to),
            Drive::Life(place) => self.life(rt, place),
            Drive::Miss { slot, frames } => {
                self.missed.miss(slot, self.next, frames);
                Ok(())
            }
        }
    }

    // Settles what is out, and sums up.
    pub fn finish(&mut self, rt: &impl Print, name: &str) -> io::Result<()> {
        self.settle_to(rt, 0)?;
        self.spacing.pass(u64::MAX, self.settings.guard);
        let (tally, phases) = (self.tally, Phases(&self.views));
        println!(rt; "{name}: {tally}")?;
        match self.spacing.smallest() {
            Some(bits) => println!(rt; "{name}: smallest distance between bursts {bits} bits")?,
            None => println!(rt; "{name}: no two bursts")?,
        }
        println!(rt; "{name}: {phases}")
    }

    pub fn close(self) {
        let Floor {
            desk,
            settings: _,
            first: _,
            next: _,
            views: _,
            kept,
            lives,
            spacing,
            missed: _,
            tally: _,
        } = self;
        drop(kept);
        drop(lives);
        drop(spacing);
        desk.close();
    }
}
