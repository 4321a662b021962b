// Why a device has no queue of its own among those of a manifest.

use crate::data::{Device, Disks};
use crate::fault::{DisksFault, Misplaced, Wrong};
use std::alloc::Global;

impl Disks {
    /// The fault of the device of that number, from 1, which has no queue of its own among so many: there is no such queue, or a device
    /// before it has the queue.
    pub fn misplaced(&self, alloc: Global, number: usize, queues: u32) -> DisksFault {
        let place = number.saturating_sub(1);
        DisksFault {
            wrong: Wrong::Queue(misplaced(&self.devices, place, queues)),
            device: number,
            failure: 0,
            key: String::new(alloc),
        }
    }
}

// Why the device at that place has no queue of its own.
fn misplaced(devices: &[Device], place: usize, queues: u32) -> Misplaced {
    let queue = queue_of(devices, place);
    let device = number_with(devices, queue);
    let queues = u64::from(queues);
    match queue {
        Some(queue) if queues <= queue => Misplaced::Beyond { queue, queues },
        Some(queue) => Misplaced::Taken { queue, device },
        None => Misplaced::Unnamed { device },
    }
}

fn queue_of(devices: &[Device], place: usize) -> Option<u64> {
    match devices.get(place) {
        Some(device) => device.queue,
        None => None,
    }
}

// The number, from 1, of the first device with that queue.
fn number_with(devices: &[Device], queue: Option<u64>) -> u64 {
    let place = devices.iter().position(|device| device.queue == queue);
    (place.unwrap_or(0) as u64).saturating_add(1)
}
