// How many CCBs of queues were withdrawn. It relies on `show_events` for withdrawals.

use ccb::CamStatus;
use show_events::{Event, Happening};

/// How many queues there are at most.
const QUEUES: usize = 64;

/// Those of all queues, in the order of their numbers.
#[derive(Clone, Copy)]
pub(crate) struct Withdrawals {
    counts: [u64; QUEUES],
}

impl Withdrawals {
    /// No CCB was withdrawn.
    pub(crate) fn new() -> Self {
        Withdrawals {
            counts: [0; QUEUES],
        }
    }

    /// Takes what an event says.
    pub(crate) fn see(&mut self, event: &Event) {
        let Happening::Withdrawn = event.happening else {
            return;
        };
        let queue = event.queue().unwrap_or(u32::MAX);
        if let Some(count) = self.counts.get_mut(queue as usize) {
            *count = count.saturating_add(1);
        }
    }

    /// How many CCBs of a queue ended with that final code by a withdrawal.
    pub(crate) fn ended_with(&self, queue: usize, code: u32) -> u64 {
        if code != u32::from(CamStatus::RequestAborted.code()) {
            return 0;
        }
        self.counts.get(queue).copied().unwrap_or(0)
    }
}
