// Lanes beside one another: what lasts for a while takes the lowest free one of its queue, so that nothing overlaps in a lane. A lane is a
// thread of the queue's process. It relies on `output` for tracks.

use crate::output::{Output, Track};
use std::alloc::{AllocError, Global};
use std::collections::BTreeSet;

/// A lane that was taken, and the track that it is.
#[derive(Clone, Copy)]
pub(crate) struct Taken {
    queue: u32,
    // from 0
    lane: u32,
    pub(crate) track: Track,
}

/// The lanes of a queue: how many there are, and which of them are free.
#[derive(Drop)]
struct Lanes {
    count: u32,
    free: BTreeSet<u32>,
}

impl Lanes {
    // The lowest free one; a further one, if none is free: then this says so.
    fn take(&mut self) -> (u32, bool) {
        match self.free.pop_first() {
            Some(lane) => (lane, false),
            None => {
                let lane = self.count;
                self.count = self.count.saturating_add(1);
                (lane, true)
            }
        }
    }
}

/// The lanes of one kind, of all queues.
#[derive(Drop)]
pub(crate) struct AllLanes {
    name: &'static str,
    first: u64,
    queues: Vec<Lanes>,
}

impl AllLanes {
    /// None of any of so many queues. Their threads have that name, and the numbers from that one on.
    pub(crate) fn new(
        alloc: Global,
        name: &'static str,
        first: u64,
        count: u32,
    ) -> Result<Self, AllocError> {
        let mut queues = Vec::new(alloc);
        for _ in 0..count {
            queues.push(Lanes {
                count: 0,
                free: BTreeSet::new(alloc),
            })?;
        }
        Ok(AllLanes {
            name,
            first,
            queues,
        })
    }

    /// Takes the lowest free lane of a queue, if there is such a queue; a further one, which gets its name, if none is free.
    pub(crate) fn take(&mut self, queue: u32, output: &mut Output) -> Option<Taken> {
        let Some(lanes) = self.queues.as_mut_slice().get_mut(queue as usize) else {
            return None;
        };
        let (lane, is_new) = lanes.take();
        let track = Track {
            process: u64::from(queue).saturating_add(1),
            thread: u64::from(lane).saturating_add(self.first),
        };
        if is_new {
            output.name_thread(self.name, track);
        }
        Some(Taken { queue, lane, track })
    }

    /// Frees a lane that was taken.
    pub(crate) fn give_back(&mut self, taken: Taken) -> Result<(), AllocError> {
        if let Some(lanes) = self.queues.as_mut_slice().get_mut(taken.queue as usize) {
            let _ = lanes.free.insert(taken.lane)?;
        }
        Ok(())
    }
}
