// A whole trial: devices for the queues of a configuration, and a host that asks them. It relies on `hosting` for what happens.

ghost use Rattle.std.specs.Prelude.{◌≡◌, ℕ, IfErr, IfNone, IfOk, IfSome, IsTrue};
ghost use Rattle.std.specs.List.{list_any};
ghost use Rattle.trace.specs.HasText.{AllHaveText};
ghost use Rattle.world.specs.World.{queue_count};
ghost use Rattle.host_trial.specs.Hosted.{AreHosted};
ghost use Rattle.host_trial.specs.Misplaced.{IsMisplaced, IsUntried, has_queue, is_beyond, is_misplaced};
ghost use Rattle.host_trial.specs.Submitted.{AreSubmitted, unsubmitted, up_to_64_bits};
ghost use Rattle.host_trial.specs.Tried.{IsTrial};
ghost use Rattle.host_trial.specs.declared.ending.Ending.TheVariants.{Finished};

use crate::answers::Schedule;
use crate::drives::Drive;
use crate::ending::{Ending, Halt};
use crate::hosted::are_hosted;
use crate::hosting::Hosting;
use crate::patience::most_moments;
use crate::recorded::Recorded;
use crate::submissions::{are_submitted, unsubmitted};
use base::OrMemory;
use base_chunked_list::ChunkedList;
use ccb::QueueId;
use engine_config::Config;
use std::alloc::{AllocError, Global};
use trial_disks::{Device, Disks};
use world_calls::{Record, Trace};

/// What was recorded in a trial, and how it ended.
#[derive(Drop)]
pub struct Trial {
    pub trace: Trace,
    pub ending: Ending,
    /// Why it went no further.
    pub halt: Halt,
    /// How many requests were never submitted, of those that the devices were to get, at most 2^64 - 1.
    pub unsubmitted: u64,
}

/// Why there was no trial: memory was refused, or the device of that number, from 1, has a queue that the configuration lacks, or one of a
/// device before it.
pub type Untried = OrMemory<usize>;

/// Tries the policies of a configuration on devices, with this seed.
pub fn run(alloc: Global, config: &Config, disks: &Disks, seed: u64) -> Result<Trial, Untried>
    ensures tried { IfOk result (λ it. IsTrial config.now it.trace it.ending) }
    ensures spelled { IfOk result (λ it. AllHaveText it.trace.version it.trace.records.items) }
    // Without want of memory it is refused only for a device whose queue is not there, or is that of a device before it.
    ensures untried { IfErr result (IsUntried disks.now.devices.items (queue_count config.now)) }
    // Otherwise there is no such device.
    ensures placed { IfOk result (λ _. (number : ℕ) → IsMisplaced disks.now.devices.items (queue_count config.now) number → ⊥) }
    // It is finished only if each device got its requests, no fewer and no more, and if nothing else happened than that they were tried.
    ensures submitted { IfOk result (λ it. it.ending ≡ Finished → AreSubmitted disks.now (queue_count config.now) it.trace.records.items) }
    ensures hosted { IfOk result (λ it. it.ending ≡ Finished → AreHosted disks.now it.trace.records.items) }
    ensures unsubmitted { IfOk result (λ it. it.unsubmitted ≡ up_to_64_bits (unsubmitted disks.now (queue_count config.now) it.trace.records.items)) }
{
    let drives = drives_of(alloc, config, disks)?;
    match tried(alloc, config, disks, drives, seed) {
        Ok(trial) => Ok(trial),
        Err(_) => Err(OrMemory::OutOfMemory),
    }
}

// Tries them on the devices of the queues.
fn tried(
    alloc: Global,
    config: &Config,
    disks: &Disks,
    drives: Vec<Drive<'_>>,
    seed: u64,
) -> Result<Trial, AllocError>
    ensures tried { IfOk result (λ it. IsTrial config.now it.trace it.ending) }
    ensures spelled { IfOk result (λ it. AllHaveText it.trace.version it.trace.records.items) }
    ensures submitted { IfOk result (λ it. it.ending ≡ Finished → AreSubmitted disks.now (queue_count config.now) it.trace.records.items) }
    ensures hosted { IfOk result (λ it. it.ending ≡ Finished → AreHosted disks.now it.trace.records.items) }
    ensures unsubmitted { IfOk result (λ it. it.unsubmitted ≡ up_to_64_bits (unsubmitted disks.now (queue_count config.now) it.trace.records.items)) }
{
    let moments = most_moments(disks, drives.len());
    let mut hosting = Hosting {
        alloc,
        host: Recorded::open(alloc, config)?,
        drives,
        schedule: Schedule::new(alloc),
        seed,
        requests: disks.requests,
        until: disks.until,
    };
    let halt = hosting.go_on(moments)?;
    let unsubmitted = unsubmitted(disks, config.queues(), hosting.host.records());
    let is_whole = is_whole(disks, config.queues(), hosting.host.records());
    let (trace, ending) = hosting.host.into_trial(is_whole);
    Ok(Trial {
        trace,
        ending,
        halt,
        unsubmitted,
    })
}

// Whether each device got its requests, and nothing else happened than that they were tried. It is looked for in the records, so that neither
// the host nor the devices have to be believed.
fn is_whole(disks: &Disks, queues: u32, records: &ChunkedList<Record>) -> bool
    ensures submitted { IsTrue result → AreSubmitted disks.now queues records.now.items }
    ensures hosted { IsTrue result → AreHosted disks.now records.now.items }
{
    if are_submitted(disks, queues, records) {
        are_hosted(disks, records)
    } else {
        false
    }
}

// The device of each queue that has one.
fn drives_of<'a>(
    alloc: Global,
    config: &Config,
    disks: &'a Disks,
) -> Result<Vec<Drive<'a>>, Untried>
    ensures untried { IfErr result (IsUntried disks.now.devices.items (queue_count config.now)) }
    ensures placed { IfOk result (λ _. (number : ℕ) → IsMisplaced disks.now.devices.items (queue_count config.now) number → ⊥) }
{
    match misplaced(&disks.devices, config.queues()) {
        Some(number) => Err(OrMemory::Fault(number)),
        None => match all_drives(alloc, config, disks) {
            Ok(drives) => Ok(drives),
            Err(_) => Err(OrMemory::OutOfMemory),
        },
    }
}

// The same, where each device has a queue of its own.
fn all_drives<'a>(
    alloc: Global,
    config: &Config,
    disks: &'a Disks,
) -> Result<Vec<Drive<'a>>, AllocError> {
    let mut drives = Vec::new(alloc);
    for queue in 0..config.queues() {
        if let Some(device) = device_of(&disks.devices, u64::from(queue)) {
            let drive = Drive::new(alloc, QueueId(queue), device)?;
            add(&mut drives, drive)?;
        }
    }
    Ok(drives)
}

// The number, from 1, of the first device whose queue is not there, or is that of a device before it.
fn misplaced(devices: &[Device], queues: u32) -> Option<usize>
    ensures found { IfSome result (IsMisplaced devices.now queues) }
    ensures none { IfNone result ((number : ℕ) → IsMisplaced devices.now queues number → ⊥) }
{
    for place in 0..devices.len() {
        if is_misplaced(&devices[..place], &devices[place], queues) {
            return Some(place + 1);
        }
    }
    None
}

fn is_misplaced(before: &[Device], device: &Device, queues: u32) -> bool
    ensures { result ≡ is_misplaced before.now queues device.now.queue }
{
    is_beyond(device.queue, queues) || has(before, device.queue)
}

// Whether a queue is named that is not there.
fn is_beyond(queue: Option<u64>, queues: u32) -> bool
    ensures { result ≡ is_beyond queues queue }
{
    match queue {
        Some(queue) => u64::from(queues) <= queue,
        None => false,
    }
}

// Whether one of these devices has that queue, or has each that no other one has, if none is named.
fn has(devices: &[Device], queue: Option<u64>) -> bool
    ensures { result ≡ list_any (has_queue queue) devices.now }
{
    devices.iter().any(|device| has_queue(device, queue))
}

fn has_queue(device: &Device, queue: Option<u64>) -> bool
    ensures { result ≡ has_queue queue device.now }
{
    match (device.queue, queue) {
        (Some(own), Some(queue)) => own == queue,
        (None, None) => true,
        (Some(_), None) => false,
        (None, Some(_)) => false,
    }
}

// The device of that queue: the one that names it, or else the one that names none.
fn device_of(devices: &[Device], queue: u64) -> Option<&Device> {
    match named(devices, Some(queue)) {
        Some(device) => Some(device),
        None => named(devices, None),
    }
}

fn named(devices: &[Device], queue: Option<u64>) -> Option<&Device> {
    devices.iter().find(|device| device.queue == queue)
}

// Adds a device.
fn add<'a>(drives: &mut Vec<Drive<'a>>, drive: Drive<'a>) -> Result<(), AllocError> {
    drives.push(drive)?;
    Ok(())
}
