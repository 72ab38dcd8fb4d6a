// Pictures of frames and places.
use super::Floor;
use crate::kept::KEPT;
use crate::life::Life;
use crate::life::axis::Axis;
use crate::picture::Picture;
use crate::stretch::Stretch;
use std::io;

impl Floor {
    pub(super) fn picture(&self, rt: &impl Print, frame: u64) -> io::Result<()> {
        let kept = self.kept.find(frame);
        let picture = Picture {
            frame,
            settings: &self.settings,
            kept,
        };
        match kept {
            Some(_) => println!(rt; "picture of frame {frame}\n{picture}"),
            None if frame >= self.next => {
                println!(rt; "picture of frame {frame}, still to come\n{picture}")
            }
            None => println!(rt; "picture of frame {frame}: only the last {KEPT} frames are kept"),
        }
    }

    pub(super) fn svg(&self, rt: &impl Print, from: u64, to: u64) -> io::Result<()> {
        if from > to {
            return println!(rt; "svg {from} {to}: the last frame comes before the first");
        }
        if to >= self.next {
            return println!(rt; "svg {from} {to}: frame {to} is still to come");
        }
        if self.kept.find(from).is_none() {
            return println!(rt; "svg {from} {to}: only the last {KEPT} frames are kept");
        }
        let stretch = Stretch {
            from,
            to,
            settings: &self.settings,
            kept: &self.kept,
        };
        println!(rt; "{stretch}")
    }

    pub(super) fn life(&self, rt: &impl Print, place: usize) -> io::Result<()> {
        let axis = Axis {
            start: self.first,
            now: self.next,
        };
        match self.lives.past(place) {
            Some(past) => {
                let life = Life { place, past, axis };
                println!(rt; "{life}")
            }
            None => Ok(()),
        }
    }
}
