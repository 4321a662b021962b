// What of a trace the world does not say: since when a CCB is where it is, a freeze is there, and a run is live; and the queue of each CCB,
// also of one that is finished. It relies on `event` for why a freeze is there, and on `world_calls` for what was there from the beginning.

use crate::event::Cause;
use ccb::{CamStatus, Place, QueueId};
use freeze_ledger::Holder;
use std::alloc::{AllocError, Global};
use std::collections::BTreeMap;
use world_calls::CarriedLine;

/// Of a freeze: its place, since when it is there, and why.
#[derive(Clone, Copy)]
pub struct FreezeTimes {
    pub place: Place,
    pub since: u64,
    pub cause: Cause,
}

/// Of a run: its CCB, with which status that failed, since when the run is live, and how many instructions it executed.
#[derive(Clone, Copy)]
pub struct RunTimes {
    pub ccb: u32,
    pub status: CamStatus,
    pub since: u64,
    pub instructions: u64,
}

/// Of all that is live; and of each CCB that was carried over or submitted its queue.
#[derive(Drop)]
pub(crate) struct Times {
    pub(crate) ccbs: BTreeMap<u32, u64>,
    pub(crate) freezes: BTreeMap<u32, FreezeTimes>,
    pub(crate) runs: BTreeMap<u32, RunTimes>,
    // of those that were carried over, by their numbers, none of which is above `last`
    carried: BTreeMap<u32, u8>,
    last: u32,
    // of those that were submitted, whose numbers come after that one
    queues: Vec<u8>,
}

impl Times {
    /// Nothing is live, and no CCB was carried over or submitted.
    pub(crate) fn new(alloc: Global) -> Self {
        Times {
            ccbs: BTreeMap::new(alloc),
            freezes: BTreeMap::new(alloc),
            runs: BTreeMap::new(alloc),
            carried: BTreeMap::new(alloc),
            last: 0,
            queues: Vec::new(alloc),
        }
    }

    /// Takes a line of what was carried over: a CCB is where it is since that reading, and a freeze is there.
    pub(crate) fn carry(&mut self, line: &CarriedLine, clock: u64) -> Result<(), AllocError> {
        match line {
            CarriedLine::Numbers { ccb, .. } => {
                self.last = *ccb;
                Ok(())
            }
            CarriedLine::Ccb(it) => {
                let _ = self.move_ccb(it.number.0, clock)?;
                let queue = u8::try_from(it.queue.0).unwrap_or(u8::MAX);
                let _ = self.carried.insert(it.number.0, queue)?;
                Ok(())
            }
            CarriedLine::Freeze(it) => self.take(it.number, it.place, left_by(it.holder), clock),
            _ => Ok(()),
        }
    }

    /// A CCB was submitted to that queue: the next one, since CCBs are numbered as they come.
    pub(crate) fn submit(
        &mut self,
        ccb: u32,
        queue: QueueId,
        clock: u64,
    ) -> Result<(), AllocError> {
        let _ = self.move_ccb(ccb, clock)?;
        self.queues.push(u8::try_from(queue.0).unwrap_or(u8::MAX))?;
        Ok(())
    }

    /// The queue of the CCB of that number, if one was carried over or submitted.
    pub(crate) fn queue_of(&self, ccb: u32) -> Option<QueueId> {
        let queue = if ccb > self.last {
            self.queues.get((ccb - self.last - 1) as usize)?
        } else {
            self.carried.get(&ccb)?
        };
        Some(QueueId(u32::from(*queue)))
    }

    /// The CCB is where it is since that reading: how long it was where it was before.
    pub(crate) fn move_ccb(&mut self, ccb: u32, clock: u64) -> Result<u64, AllocError> {
        let before = self.ccbs.insert(ccb, clock)?;
        Ok(clock.saturating_sub(before.unwrap_or(clock)))
    }

    /// The CCB is gone: how long it was where it was before.
    pub(crate) fn drop_ccb(&mut self, ccb: u32, clock: u64) -> u64 {
        let before = self.ccbs.remove(&ccb);
        clock.saturating_sub(before.unwrap_or(clock))
    }

    /// A freeze is there since that reading. Number 0 is none.
    pub(crate) fn take(
        &mut self,
        freeze: u32,
        place: Place,
        cause: Cause,
        clock: u64,
    ) -> Result<(), AllocError> {
        if freeze != 0 {
            let times = FreezeTimes {
                place,
                since: clock,
                cause,
            };
            let _ = self.freezes.insert(freeze, times)?;
        }
        Ok(())
    }
}

// Why a freeze is there that was carried over, by who holds it.
fn left_by(holder: Holder) -> Cause {
    match holder {
        Holder::Guest(guest) => Cause::Guest(guest),
        Holder::Timer(_) | Holder::Run(_) => Cause::CarriedOver,
    }
}
