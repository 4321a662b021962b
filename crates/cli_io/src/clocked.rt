// Standard input with the machine's clock: another thread reads, so that this one can wait for what is due meanwhile. It relies on
// `feed` for what is between the two, and on `stopwatch` for the clock.

ghost use Rattle.std.specs.Prelude.{None};

use crate::feed::{Feed, Feeder, Handed, take};
use crate::reading::PIECE;
use crate::stopwatch::Stopwatch;
use host_live::{Came, Input};
use std::alloc::{AllocError, Global};
use std::rt::Clock;
use std::sync::{Arc, Wait};

/// The side that takes what is read, with a clock which reads 0 at the beginning.
#[derive(Drop)]
pub struct Clocked<'a, R: Wait + Clock> {
    rt: &'a R,
    clock: Stopwatch<'a, R>,
    feed: Arc<Feed>,
    bytes: Vec<u8>,
    len: usize,
    has_failed: bool,
    has_ended: bool,
}

impl<'a, R: Wait + Clock> Clocked<'a, R> {
    /// The clock from now on, and what the other thread reads with.
    pub fn of(alloc: Global, rt: &'a R) -> Result<(Self, Feeder), AllocError> {
        let feed = Arc::new(alloc, Feed::of(alloc)?)?;
        let feeder = Feeder::of(alloc, &feed)?;
        let clocked = Clocked {
            rt,
            clock: Stopwatch::of(rt),
            feed,
            bytes: vec![in alloc; 0; PIECE]?,
            len: 0,
            has_failed: false,
            has_ended: false,
        };
        Ok((clocked, feeder))
    }
}

impl<R: Wait + Clock> Input for Clocked<'_, R> {
    ghost has_failed = { λ clocked. clocked.has_failed };

    ghost has_ended = { λ clocked. clocked.has_ended };

    ghost came = { λ _. None };

    fn wait(&mut self, until: Option<u64>) -> Came {
        match take(self.rt, &self.clock, &self.feed, until, &mut self.bytes) {
            Handed::Nothing => Came::Due(self.now().or(until).unwrap_or(0)),
            Handed::Bytes(len) => {
                self.len = len;
                Came::Bytes
            }
            Handed::End => {
                self.has_ended = true;
                Came::End
            }
            Handed::Failed => {
                self.has_failed = true;
                Came::Failed
            }
        }
    }

    fn bytes(&self) -> &[u8] {
        self.bytes.get(..self.len).unwrap_or(&[])
    }

    fn now(&self) -> Option<u64> {
        self.clock.now()
    }
}
