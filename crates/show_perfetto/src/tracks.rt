// What is drawn of events: active CCBs, recoveries, freezes and counts. It relies on `ccbs`, `runs` and `freezes` for what lasts, and on
// `show_events` for how many CCBs wait.

use crate::ccbs::Ccbs;
use crate::freezes::Freezes;
use crate::output::{Output, PLACES};
use crate::runs::Runs;
use ccb::{Place, QueueId};
use show_events::{Event, Happening, Programs, Walk};
use std::alloc::{AllocError, Global};
use world_calls::CarriedLine;

/// All that lasts at a moment.
#[derive(Drop)]
pub(crate) struct Tracks {
    ccbs: Ccbs,
    runs: Runs,
    freezes: Freezes,
}

impl Tracks {
    /// Nothing lasts.
    pub(crate) fn new(alloc: Global, queues: u32) -> Result<Self, AllocError> {
        Ok(Tracks {
            ccbs: Ccbs::new(alloc, queues)?,
            runs: Runs::new(alloc, queues)?,
            freezes: Freezes::new(alloc),
        })
    }

    /// Takes what was carried over at that time, after which the world is that of the walk.
    pub(crate) fn carry(
        &mut self,
        lines: &[CarriedLine],
        at: u64,
        walk: &Walk<'_>,
        output: &mut Output,
    ) -> Result<(), AllocError> {
        let mut frozen = [0u64; PLACES];
        for line in lines {
            match line {
                CarriedLine::Openings { queue, openings: _ } => {
                    put_first_waiting(QueueId(*queue), at, walk, output);
                }
                CarriedLine::Ccb(it) => self.ccbs.carry(it, at, output)?,
                CarriedLine::Freeze(it) => {
                    self.freezes.carry(it, at, output)?;
                    put_more_frozen(it.place, &mut frozen, at, output);
                }
                _ => {}
            }
        }
        Ok(())
    }

    /// Takes what an event at that time says, after which the world is that of the walk.
    pub(crate) fn see(
        &mut self,
        event: &Event,
        at: u64,
        programs: &Programs<'_>,
        walk: &Walk<'_>,
        output: &mut Output,
    ) -> Result<(), AllocError> {
        self.ccbs.see(event, at, output)?;
        self.runs.see(event, at, programs, output)?;
        self.freezes.see(event, at, output)?;
        put_counts(event, at, walk, output);
        Ok(())
    }

    /// Puts the end of all that lasts at the end.
    pub(crate) fn end(&self, at: u64, output: &mut Output) {
        self.ccbs.end_all(at, output);
        self.runs.end_all(at, output);
        self.freezes.end_all(at, output);
    }
}

// Puts how many CCBs of a queue wait before the first record, if any does.
fn put_first_waiting(queue: QueueId, at: u64, walk: &Walk<'_>, output: &mut Output) {
    let waiting = waiting(queue, walk);
    if waiting > 0 {
        put_count("waiting", waiting, Place::Device(queue), at, output);
    }
}

// Puts how often a place is frozen with one freeze more.
fn put_more_frozen(place: Place, frozen: &mut [u64; PLACES], at: u64, output: &mut Output) {
    if let Some(count) = frozen.get_mut(place.index()) {
        *count = count.saturating_add(1);
        put_count("frozen", *count, place, at, output);
    }
}

// Puts how many CCBs wait, or how often a place is frozen, if the event changed that.
fn put_counts(event: &Event, at: u64, walk: &Walk<'_>, output: &mut Output) {
    let Some(place) = event.subject.place else {
        return;
    };
    match event.happening {
        Happening::Submitted | Happening::Started | Happening::Withdrawn | Happening::Requeued => {
            let waiting = waiting(QueueId(event.queue().unwrap_or(u32::MAX)), walk);
            put_count("waiting", waiting, place, at, output);
        }
        Happening::Failed
        | Happening::FrozenByRun
        | Happening::FrozenByGuest
        | Happening::GivenBackByRun
        | Happening::GivenBackByGuest
        | Happening::TimerCame => {
            put_count("frozen", u64::from(event.values.frozen), place, at, output);
        }
        _ => {}
    }
}

fn put_count(name: &str, count: u64, place: Place, at: u64, output: &mut Output) {
    let process = output.process(place);
    output.put_count(name, count, process, at);
}

// How many CCBs wait in a queue.
fn waiting(queue: QueueId, walk: &Walk<'_>) -> u64 {
    match walk.engine().queue_info(queue) {
        Some(info) => u64::from(info.waiting),
        None => 0,
    }
}
