// Who is told on standard error how far a run or a replay is. It relies on `world_calls` for what there is to tell, and on `stopwatch` for
// when.

use crate::stopwatch::Stopwatch;
use std::io::{Stderr, Write};
use std::rt::Clock;
use std::sync::atomic::{AtomicU64, Ordering};
use world_calls::{Notice, Notices};

/// How long it is silent, in milliseconds: at first, and after each notice.
const SILENCE: u64 = 500;

/// Tells on standard error, at most twice a second, where that is wanted.
#[derive(Drop)]
pub struct Telling<'a, C: Clock> {
    clock: Stopwatch<'a, C>,
    err: Stderr,
    is_on: bool,
    // when the next notice may be, in milliseconds of the clock
    due: AtomicU64,
}

impl<'a, C: Clock> Telling<'a, C> {
    /// One that tells, or one that is silent, by that word.
    pub fn new(clock: &'a C, err: Stderr, is_on: bool) -> Self {
        Telling {
            clock: Stopwatch::of(clock),
            err,
            is_on,
            due: AtomicU64::new(SILENCE),
        }
    }
}

impl<'a, C: Clock> Notices for Telling<'a, C> {
    // Of threads that ask at one time one is told so.
    fn is_wanted(&self) -> bool {
        if !self.is_on {
            return false;
        }
        let Some(now) = self.clock.now() else {
            return false;
        };
        let due = self.due.load(Ordering::Relaxed);
        due <= now
            && self
                .due
                .compare_exchange(
                    due,
                    now.saturating_add(SILENCE),
                    Ordering::Relaxed,
                    Ordering::Relaxed,
                )
                .is_ok()
    }

    // What cannot be written is not told.
    fn tell(&self, notice: Notice) {
        let mut err = &self.err;
        let _ = writeln!(err, "camr: {notice}");
    }
}
