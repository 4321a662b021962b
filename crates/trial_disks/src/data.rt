// The devices of a file, as they are tried. It relies on `ccb` for completions.

ghost use Rattle.std.specs.Prelude.{◌≤◌, ◌<◌, ◌^◌};

use ccb::Completion;

/// The last moment, in milliseconds.
pub const LAST_TIME: u64 = 1 << 62;

/// The share of all.
pub const MILLION: u64 = 1_000_000;

/// How long something takes, in milliseconds.
#[derive(Clone, Copy, Debug)]
pub struct Span {
    pub least: u64,
    pub most: u64,
}

/// When a device fails, and with what. A start fails so if all of this is true of it.
#[derive(Drop)]
pub struct Failure {
    /// What it answers, for whichever CCB.
    pub completion: Completion,
    /// How long that takes, if not as long as otherwise.
    pub latency: Option<Span>,
    /// So many of a million starts fail so that are in the window and in the patch.
    pub share: u64,
    /// The window: from this moment on, and before that one.
    pub from: u64,
    pub until: u64,
    /// After so long the window comes again, and again; 0 if it never does.
    pub period: u64,
    /// The patch: from this address to that one.
    pub first: u64,
    pub last: u64,
    /// More than so many CCBs are active.
    pub over: u64,
    /// Of each request only so many tries.
    pub tries: u64,
    /// It heals after it failed so often.
    pub heals_after: u64,
    /// It heals on this advice; 0 if on none.
    pub heals_on_advice: u64,
    /// So long after that it still fails.
    pub heals_in: u64,
}

/// A device, and how it is asked.
#[derive(Drop)]
pub struct Device {
    /// Its queue; if none is named it is that of each queue which no other one names.
    pub queue: Option<u64>,
    /// How many requests the host has there at a time.
    pub depth: u64,
    /// How often each may be tried again.
    pub retries: u32,
    pub latency: Span,
    /// How many addresses it has, 1 at least.
    pub addresses: u64,
    /// Of those that a start meets, the first one counts.
    pub failures: Vec<Failure>,
}

/// The devices of a file.
#[derive(Drop)]
pub struct Disks {
    pub seed: u64,
    /// How many requests each device gets.
    pub requests: u64,
    /// When it stops at the latest.
    pub until: u64,
    /// After how many moments it stops at the latest; 0 if the number of requests says so.
    pub limit: u64,
    pub devices: Vec<Device>,
}
