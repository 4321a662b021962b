// CCBs that are active, each in a lane of its queue, and arrows from a failure to the next start. It relies on `show_events` for the events.

use crate::lanes::{AllLanes, Taken};
use crate::output::{Output, Point};
use show_events::{Event, Happening};
use std::alloc::{AllocError, Global};
use std::collections::BTreeMap;
use world_calls::CarriedCcb;

/// The thread of the first lane.
const FIRST: u64 = 1;

/// A CCB that is active: in which lane, since when, and for the how manieth time; where it failed before, if it did; and whether it was carried
/// over, so that it was active before.
#[derive(Clone, Copy)]
struct Active {
    lane: Taken,
    since: u64,
    attempt: u64,
    failed: Option<Point>,
    is_carried: bool,
}

/// The CCBs that are active, and those that failed and did not start since.
#[derive(Drop)]
pub(crate) struct Ccbs {
    lanes: AllLanes,
    active: BTreeMap<u32, Active>,
    failed: BTreeMap<u32, Point>,
}

impl Ccbs {
    /// None is active on any of so many queues.
    pub(crate) fn new(alloc: Global, queues: u32) -> Result<Self, AllocError> {
        Ok(Ccbs {
            lanes: AllLanes::new(alloc, "active", FIRST, queues)?,
            active: BTreeMap::new(alloc),
            failed: BTreeMap::new(alloc),
        })
    }

    /// Takes a CCB that was carried over at that time.
    pub(crate) fn carry(
        &mut self,
        it: &CarriedCcb,
        at: u64,
        output: &mut Output,
    ) -> Result<(), AllocError> {
        if !it.is_active {
            return Ok(());
        }
        let Some(lane) = self.lanes.take(it.queue.0, output) else {
            return Ok(());
        };
        let active = Active {
            lane,
            since: at,
            attempt: u64::from(it.attempts),
            failed: None,
            is_carried: true,
        };
        let _ = self.active.insert(it.number.0, active)?;
        Ok(())
    }

    /// Takes what an event at that time says.
    pub(crate) fn see(
        &mut self,
        event: &Event,
        at: u64,
        output: &mut Output,
    ) -> Result<(), AllocError> {
        let Some(ccb) = event.subject.ccb else {
            return Ok(());
        };
        match event.happening {
            Happening::Started => self.begin(ccb, event, at, output),
            Happening::Completed => {
                let _ = self.end(ccb, event, at, output)?;
                Ok(())
            }
            Happening::Failed | Happening::FailedAtLimit => self.fail(ccb, event, at, output),
            Happening::Finished | Happening::Withdrawn => {
                let _ = self.failed.remove(&ccb);
                Ok(())
            }
            _ => Ok(()),
        }
    }

    /// Puts those that are active at the end.
    pub(crate) fn end_all(&self, at: u64, output: &mut Output) {
        for (ccb, active) in self.active.iter() {
            put(*ccb, active, at, None, output);
        }
    }

    // It starts, in the lowest free lane of its queue.
    fn begin(
        &mut self,
        ccb: u32,
        event: &Event,
        at: u64,
        output: &mut Output,
    ) -> Result<(), AllocError> {
        let queue = event.queue().unwrap_or(u32::MAX);
        let Some(lane) = self.lanes.take(queue, output) else {
            return Ok(());
        };
        let active = Active {
            lane,
            since: at,
            attempt: event.values.numbers[0],
            failed: self.failed.remove(&ccb),
            is_carried: false,
        };
        let _ = self.active.insert(ccb, active)?;
        Ok(())
    }

    // It is active no more: where it was, if it was.
    fn end(
        &mut self,
        ccb: u32,
        event: &Event,
        at: u64,
        output: &mut Output,
    ) -> Result<Option<Active>, AllocError> {
        let Some(active) = self.active.remove(&ccb) else {
            return Ok(None);
        };
        put(ccb, &active, at, Some(event), output);
        self.lanes.give_back(active.lane)?;
        Ok(Some(active))
    }

    // It failed: from there an arrow leads to its next start. The arrow begins before the end of what failed, which does not have its own end.
    fn fail(
        &mut self,
        ccb: u32,
        event: &Event,
        at: u64,
        output: &mut Output,
    ) -> Result<(), AllocError> {
        if let Some(active) = self.end(ccb, event, at, output)? {
            let point = Point {
                track: active.lane.track,
                at: at.saturating_sub(1).max(active.since),
            };
            let _ = self.failed.insert(ccb, point)?;
        }
        Ok(())
    }
}

// Puts that it was active up to then, and the arrow that leads there.
fn put(ccb: u32, active: &Active, at: u64, ended: Option<&Event>, output: &mut Output) {
    let from = Point {
        track: active.lane.track,
        at: active.since,
    };
    output.begin_active(ccb, active.attempt, from, at);
    output.end_active(active.is_carried, ended);
    if let Some(failed) = active.failed {
        output.put_arrow(failed, from);
    }
}
