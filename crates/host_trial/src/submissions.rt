// How many requests the devices of a trial got, by the records of it. It relies on `trial_disks` for devices, and on `world_calls` for
// records.

ghost use Rattle.std.specs.Prelude.{◌≡◌, IsTrue, false, true};
ghost use Rattle.std.specs.List.{list_any};
ghost use Rattle.host_trial.specs.Submitted.{AreSubmitted, is_submission, lacking, makes_ccb, serves, submissions, submits_to, unsubmitted, up_to_64_bits};

use base_chunked_list::ChunkedList;
use trial_disks::{Device, Disks};
use world_calls::{Call, CallAnswer, Record};

/// Whether, of so many queues, each that has a device got as many requests as the file asks for, no fewer and no more.
pub(crate) fn are_submitted(disks: &Disks, queues: u32, records: &ChunkedList<Record>) -> bool
    ensures { IsTrue result → AreSubmitted disks.now queues records.now.items }
{
    for queue in 0..queues {
        if misses(disks, queue, records) {
            return false;
        }
    }
    true
}

// Whether a queue has a device that got fewer requests, or more.
fn misses(disks: &Disks, queue: u32, records: &ChunkedList<Record>) -> bool
    ensures { result ≡ false → list_any (serves queue) disks.now.devices.items ≡ true → submissions queue records.now.items ≡ disks.now.requests }
{
    if is_served(&disks.devices, queue) {
        let made = submissions(records, queue) as u64;
        made != disks.requests
    } else {
        false
    }
}

/// How many requests the devices of so many queues lack that the file asks for, at most 2^64 - 1.
pub(crate) fn unsubmitted(disks: &Disks, queues: u32, records: &ChunkedList<Record>) -> u64
    ensures { result ≡ up_to_64_bits (unsubmitted disks.now queues records.now.items) }
{
    let mut count: u64 = 0;
    for queue in 0..queues {
        count = count.saturating_add(lacking(disks, queue, records));
    }
    count
}

// How many requests a queue lacks: none, if it has no device.
fn lacking(disks: &Disks, queue: u32, records: &ChunkedList<Record>) -> u64
    ensures { result ≡ lacking disks.now records.now.items queue }
{
    if is_served(&disks.devices, queue) {
        let made = submissions(records, queue) as u64;
        disks.requests.saturating_sub(made)
    } else {
        0
    }
}

// Whether a queue has a device.
fn is_served(devices: &[Device], queue: u32) -> bool
    ensures { result ≡ list_any (serves queue) devices.now }
{
    devices.iter().any(|device| serves(device, queue))
}

/// Whether a device answers for a queue.
pub(crate) fn serves(device: &Device, queue: u32) -> bool
    ensures { result ≡ serves queue device.now }
{
    match device.queue {
        Some(own) => own == u64::from(queue),
        None => true,
    }
}

// How many CCBs were made for a queue.
fn submissions(records: &ChunkedList<Record>, queue: u32) -> usize
    ensures { result ≡ submissions queue records.now.items }
{
    let mut count = 0;
    for place in 0..records.len() {
        if is_submission(&records[place], queue) {
            count += 1;
        }
    }
    count
}

fn is_submission(made: &Record, queue: u32) -> bool
    ensures { result ≡ is_submission queue made.now }
{
    match made {
        Record::Called { answer, call } => makes_ccb(answer) && submits_to(call, queue),
        Record::Advance { .. } => false,
    }
}

fn makes_ccb(answer: &CallAnswer) -> bool
    ensures { result ≡ makes_ccb answer.now }
{
    matches!(answer, CallAnswer::Ccb(_))
}

fn submits_to(call: &Call, queue: u32) -> bool
    ensures { result ≡ submits_to queue call.now }
{
    match call {
        Call::Submit { queue: to, .. } => to.0 == queue,
        _ => false,
    }
}
