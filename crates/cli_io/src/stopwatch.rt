// The machine's clock, as what tells and what serves reads it. It relies on nothing.

use std::rt::Clock;
use std::time::Duration;

/// A clock that reads 0 at its beginning.
#[derive(Drop)]
pub struct Stopwatch<'a, C: Clock> {
    clock: &'a C,
    begun: Duration,
}

impl<'a, C: Clock> Stopwatch<'a, C> {
    /// It begins now.
    pub fn of(clock: &'a C) -> Self {
        Stopwatch {
            clock,
            begun: clock.monotonic().unwrap_or(Duration::from_millis(0)),
        }
    }

    /// What it reads, in milliseconds; `None` where the machine's clock cannot be read.
    pub fn now(&self) -> Option<u64> {
        match self.clock.monotonic() {
            Ok(now) => Some(milliseconds(now.saturating_sub(self.begun))),
            Err(_) => None,
        }
    }
}

fn milliseconds(time: Duration) -> u64 {
    time.as_secs()
        .saturating_mul(1000)
        .saturating_add(u64::from(time.subsec_millis()))
}
