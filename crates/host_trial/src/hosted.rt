// Whether a host did what the host of a trial does, and devices answered as a file says, by the records. It relies on `trial_disks` for
// devices, and on `world_calls` for records.

ghost use Rattle.std.specs.Prelude.{◌≡◌, IsTrue, false, true};
ghost use Rattle.std.specs.List.{list_any};
ghost use Rattle.host_trial.specs.Hosted.{AreHosted, asks_so, fails_so, is_answer, is_of_host, is_of_trial, is_plain, is_request, is_success, says_same};

use crate::submissions::serves;
use base_chunked_list::ChunkedList;
use ccb::Completion;
use trial_disks::{Device, Disks};
use world_calls::{Call, CompletionRecord, Record};

/// The CAM status of a request that a device carried out.
const COMPLETED: u8 = 0x01;

/// Whether each record is of a call that the host of a trial makes on these devices, or of a run.
pub(crate) fn are_hosted(disks: &Disks, records: &ChunkedList<Record>) -> bool
    ensures { IsTrue result → AreHosted disks.now records.now.items }
{
    for place in 0..records.len() {
        if is_foreign(disks, &records[place]) {
            return false;
        }
    }
    true
}

// Whether a record is of another call than the host of a trial makes.
fn is_foreign(disks: &Disks, told: &Record) -> bool
    ensures { result ≡ false → is_of_trial disks.now told.now ≡ true }
{
    !is_of_trial(disks, told)
}

fn is_of_trial(disks: &Disks, told: &Record) -> bool
    ensures { result ≡ is_of_trial disks.now told.now }
{
    match told {
        Record::Called { call, .. } => is_of_host(disks, call),
        Record::Advance { .. } => true,
    }
}

fn is_of_host(disks: &Disks, call: &Call) -> bool
    ensures { result ≡ is_of_host disks.now call.now }
{
    match call {
        Call::Submit {
            queue,
            priority,
            retries,
            class,
        } => is_request(disks, queue.0, *priority, *retries, *class),
        Call::Dispatch { .. } | Call::Clock { .. } => true,
        Call::Complete { completion } => is_answer(disks, completion),
        _ => false,
    }
}

// Whether a submission is a request for a device of the queue.
fn is_request(disks: &Disks, queue: u32, priority: u32, retries: u32, class: Option<u32>) -> bool
    ensures { result ≡ is_request disks.now queue priority retries class }
{
    priority == 0 && is_plain(class) && is_asked(&disks.devices, queue, retries)
}

fn is_plain(class: Option<u32>) -> bool
    ensures { result ≡ is_plain class }
{
    match class {
        None => true,
        Some(class) => class == 0,
    }
}

fn is_asked(devices: &[Device], queue: u32, retries: u32) -> bool
    ensures { result ≡ list_any (asks_so queue retries) devices.now }
{
    devices.iter().any(|device| asks_so(device, queue, retries))
}

fn asks_so(device: &Device, queue: u32, retries: u32) -> bool
    ensures { result ≡ asks_so queue retries device.now }
{
    serves(device, queue) && device.retries == retries
}

// Whether a device answers so: with success, or with one of its failures.
fn is_answer(disks: &Disks, told: &CompletionRecord) -> bool
    ensures { result ≡ is_answer disks.now told.now }
{
    is_success(told) || has_failure(&disks.devices, told)
}

fn is_success(told: &CompletionRecord) -> bool
    ensures { result ≡ is_success told.now }
{
    let sense = told.sense();
    told.status().code() == COMPLETED && told.scsi() == 0 && sense.as_slice() == [].as_slice()
}

fn has_failure(devices: &[Device], told: &CompletionRecord) -> bool
    ensures { result ≡ list_any (fails_so told.now) devices.now }
{
    devices.iter().any(|device| fails_so(device, told))
}

fn fails_so(device: &Device, told: &CompletionRecord) -> bool
    ensures { result ≡ fails_so told.now device.now }
{
    device
        .failures
        .iter()
        .any(|failure| says_same(&failure.completion, told))
}

fn says_same(completion: &Completion, told: &CompletionRecord) -> bool
    ensures { result ≡ says_same told.now completion.now }
{
    let (sense, own) = (told.sense(), completion.sense());
    told.status().code() == completion.status().code()
        && told.scsi() == completion.scsi()
        && sense.as_slice() == own.as_slice()
}
