// All that a summary has: the counts of the records, and what the events say. It relies on `show_counts`, and on `seen` for what only events
// say.

use crate::seen::Seen;
use engine_config::Config;
use show_counts::{Counts, count_records};
use show_events::{Event, NamedAccepted, Programs, Shown, Walk};
use std::alloc::{AllocError, Global};
use std::io;
use world_calls::Trace;

/// The sums of a trace, and the world at its end.
#[derive(Drop)]
pub(crate) struct Sums<'a> {
    pub(crate) config: &'a Config,
    pub(crate) programs: Programs<'a>,
    pub(crate) counts: Counts,
    pub(crate) seen: Seen,
    pub(crate) walk: Walk<'a>,
}

impl<'a> Sums<'a> {
    /// Those of a trace of this configuration.
    pub(crate) fn of(
        alloc: Global,
        config: &'a Config,
        named: &'a [NamedAccepted<'a>],
        shown: Shown<'_>,
    ) -> io::Result<Self> {
        let lines = shown.carried.unwrap_or(&[]);
        let begins = shown.carried.is_none();
        let mut sums = Sums {
            config,
            programs: Programs::new(alloc, config, named)?,
            counts: count_records(alloc, config.queues(), lines, &shown.trace.records)?,
            seen: Seen::new(alloc, config, begins)?,
            walk: Walk::of(alloc, config, shown)?,
        };
        let clock = sums.walk.clock();
        sums.seen.carry(lines, clock);
        sums.see_all(alloc, shown.trace)?;
        Ok(sums)
    }

    // Takes what the events of all records say.
    fn see_all(&mut self, alloc: Global, trace: &Trace) -> Result<(), AllocError> {
        let mut events = Vec::new(alloc);
        for record in trace.records.iter() {
            events.clear();
            self.walk.step(record, &mut events)?;
            self.see(&events)?;
        }
        Ok(())
    }

    fn see(&mut self, events: &[Event]) -> Result<(), AllocError> {
        for event in events {
            self.seen.see(event, &self.programs)?;
        }
        Ok(())
    }
}
