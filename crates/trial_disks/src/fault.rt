// What is wrong with a file of devices. It relies on `base` for memory that is refused.

ghost use Rattle.std.specs.Prelude.{◌≡◌};
ghost use Rattle.manifest_form.specs.Seen.{IfFault};
ghost use Rattle.trial_disks.specs.Codes.{code_of};

use crate::keys::Bounds;
use base::OrMemory;
use std::alloc::Global;

/// The first fault of a file: what is wrong, under which key, and in which device and which of its failures, from 1; 0 if in none.
#[derive(Drop)]
pub struct DisksFault {
    pub(crate) wrong: Wrong,
    pub(crate) device: usize,
    pub(crate) failure: usize,
    /// The key, if it is about one; of a text that is no TOML, why it is none.
    pub(crate) key: String,
}

/// Why a file was not read: memory was refused, or it has that fault.
pub type DisksError = OrMemory<DisksFault>;

/// What is wrong with a file, with a key of it, or with what stands under the key.
#[derive(Clone, Copy)]
pub(crate) enum Wrong {
    /// The text is no TOML, at this line and this character of it, both from 1.
    Text { line: u64, column: u64 },
    /// The key is missing.
    Missing,
    /// There is no such key.
    Unknown,
    /// The value is none of those.
    Form(Form),
    /// The number is not within these bounds.
    Outside { number: i64, bounds: Bounds },
    /// The least number of a span is more than its most.
    Turned { least: u64, most: u64 },
    /// No start ever meets the failure.
    Never(Never),
    /// The device has no queue of its own.
    Queue(Misplaced),
}

/// What a value is to be.
#[derive(Clone, Copy)]
pub(crate) enum Form {
    Table,
    Devices,
    Failures,
    Number,
    Span,
    Text,
    /// Of a completion: three words, and each of them.
    Completion,
    Status,
    Scsi,
    Sense,
}

/// Why no start ever meets a failure.
#[derive(Clone, Copy)]
pub(crate) enum Never {
    /// By its completion a request is in progress, or is completed.
    InProgress,
    Completed,
    /// Its window is empty.
    Window { from: u64, until: u64 },
    /// Its window begins when the period is over, or later.
    Period { from: u64, period: u64 },
    /// Its patch is empty.
    Patch { first: u64, last: u64 },
}

/// Why a device has no queue of its own.
#[derive(Clone, Copy)]
pub(crate) enum Misplaced {
    /// The manifest has only so many queues.
    Beyond { queue: u64, queues: u64 },
    /// The device of that number has the queue.
    Taken { queue: u64, device: u64 },
    /// That one names no queue either.
    Unnamed { device: u64 },
}

/// The fault of a key, before it is known in which device.
#[derive(Clone, Copy)]
pub(crate) struct KeyFault<'a> {
    pub(crate) wrong: Wrong,
    pub(crate) key: &'a str,
}

/// What is wrong with that key.
pub(crate) fn fault_of<'a>(wrong: Wrong, key: &'a str) -> KeyFault<'a>
    ensures { result.wrong ≡ wrong }
{
    KeyFault { wrong, key }
}

impl KeyFault<'_> {
    /// The same in this device and this failure.
    pub(crate) fn at(self, alloc: Global, device: usize, failure: usize) -> DisksError
        ensures { IfFault (λ fault. fault.wrong ≡ self.entry.wrong) result }
    {
        match String::from_str(alloc, self.key) {
            Ok(key) => OrMemory::Fault(DisksFault {
                wrong: self.wrong,
                device,
                failure,
                key,
            }),
            Err(error) => OrMemory::from(error),
        }
    }
}

impl DisksFault {
    /// Its code, D1 to D5.
    pub fn code(&self) -> &'static str
        ensures { result.now ≡ code_of self.now.wrong }
    {
        match self.wrong {
            Wrong::Text { .. } => "D1",
            Wrong::Missing => "D2",
            Wrong::Unknown => "D2",
            Wrong::Form(_) => "D3",
            Wrong::Outside { .. } => "D4",
            Wrong::Turned { .. } => "D4",
            Wrong::Never(_) => "D4",
            Wrong::Queue(_) => "D5",
        }
    }
}
