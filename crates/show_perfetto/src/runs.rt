// Recoveries: runs, each in a lane of the queue whose CCB failed, with the helpers that they call. It relies on `show_events` for the events, and
// on `show_json` for helpers.

use crate::lanes::{AllLanes, Taken};
use crate::output::{Output, Point};
use show_events::{Event, Happening, Programs};
use show_json::{helper_of, kind_of};
use std::alloc::{AllocError, Global};
use std::collections::BTreeMap;

/// The thread of the first lane: those of active CCBs, of which a queue has no more than its openings, are below.
const FIRST: u64 = 1001;

/// The live runs, each with its lane.
#[derive(Drop)]
pub(crate) struct Runs {
    lanes: AllLanes,
    live: BTreeMap<u32, Taken>,
}

impl Runs {
    /// None is live for any of so many queues.
    pub(crate) fn new(alloc: Global, queues: u32) -> Result<Self, AllocError> {
        Ok(Runs {
            lanes: AllLanes::new(alloc, "recovery", FIRST, queues)?,
            live: BTreeMap::new(alloc),
        })
    }

    /// Takes what an event at that time says.
    pub(crate) fn see(
        &mut self,
        event: &Event,
        at: u64,
        programs: &Programs<'_>,
        output: &mut Output,
    ) -> Result<(), AllocError> {
        let Some(run) = event.subject.run else {
            return Ok(());
        };
        match event.happening {
            Happening::Failed | Happening::FailedAtLimit => {
                self.begin(run, event, at, programs, output)
            }
            Happening::Ended => self.end(run, event, at, output),
            _ => {
                self.put_step(run, event, at, output);
                Ok(())
            }
        }
    }

    /// Puts the end of those that are live at the end.
    pub(crate) fn end_all(&self, at: u64, output: &mut Output) {
        for (_, lane) in self.live.iter() {
            let track = lane.track;
            output.end_run(None, Point { track, at });
        }
    }

    // It begins, in the lowest free lane of its queue.
    fn begin(
        &mut self,
        run: u32,
        event: &Event,
        at: u64,
        programs: &Programs<'_>,
        output: &mut Output,
    ) -> Result<(), AllocError> {
        let queue = event.queue().unwrap_or(u32::MAX);
        let Some(lane) = self.lanes.take(queue, output) else {
            return Ok(());
        };
        let track = lane.track;
        let program = programs.name(programs.of(queue));
        output.begin_run(event, program, Point { track, at });
        let _ = self.live.insert(run, lane)?;
        Ok(())
    }

    fn end(
        &mut self,
        run: u32,
        event: &Event,
        at: u64,
        output: &mut Output,
    ) -> Result<(), AllocError> {
        let Some(lane) = self.live.remove(&run) else {
            return Ok(());
        };
        let track = lane.track;
        output.end_run(Some(event), Point { track, at });
        self.lanes.give_back(lane)
    }

    // Puts what the run did, if the event is of that.
    fn put_step(&self, run: u32, event: &Event, at: u64, output: &mut Output) {
        let name = step_name(event);
        if name.is_empty() {
            return;
        }
        if let Some(lane) = self.live.get(&run) {
            let track = lane.track;
            output.put_step(name, event, Point { track, at });
        }
    }
}

// What a run did: the helper that it called, or that it was parked or resumed; nothing for an event of anything else.
fn step_name(event: &Event) -> &'static str {
    match event.happening {
        Happening::Parked | Happening::Resumed => kind_of(event.happening),
        _ => match helper_of(event) {
            Some(helper) => helper.name(),
            None => "",
        },
    }
}
