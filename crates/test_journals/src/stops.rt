// A journal whose folder stops at each of its writes in turn. It relies on `cli_commands` for the engine with its journal, and on `memory` for
// the folder.

ghost use Rattle.std.specs.Prelude.{[], Some, false, if◌then◌else◌};

use crate::memory::Memory;
use cli_commands::{
    GivenManifest, ManifestUnread, MetricsFile, MetricsUnwritten, audit_journal, serve_journal,
};
use host_live::{Came, Input, Manner, Moment};
use host_metrics::Metrics;
use std::alloc::{AllocError, Global};

const MANIFEST: &str = "version = 1\n[[queue]]\nopenings = 1\nprogram = \"p1\"\n\
    [[program]]\nname = \"p1\"\nasm = \"\"\"\n\
    jeq r2, 0, requeue\n\
    mov64 r1, r2\n\
    mov64 r2, 50\n\
    call 3\n\
    requeue:\n\
    mov64 r1, 1\n\
    call 4\n\
    mov64 r0, 0\n\
    exit\n\
    \"\"\"\n";

const INPUT: &[u8] =
    b"submit 0 10 3\ndispatch 0\ncomplete 1 0b 00 -\nclock 50\ngfreeze 0 7\ndispatch 0\n";

// What is asked after the stop.
const MORE: &[u8] = b"submit 0 1 1\nclock 90\n";

/// More writes than there are.
const WRITES: u32 = 60;

/// The folder, the file of the lock, the manifest, and the segment with its first line.
const FIRST: u32 = 4;

/// The status of an engine that cannot write a file.
const STOPPED: u8 = 2;

/// Lines that come at once, and then the end.
#[derive(Drop)]
struct Once {
    bytes: &'static [u8],
    has_come: bool,
    has_ended: bool,
}

impl Once {
    fn of(bytes: &'static [u8]) -> Self {
        Once {
            bytes,
            has_come: false,
            has_ended: false,
        }
    }
}

impl Input for Once {
    ghost has_failed = { λ _. false };

    ghost has_ended = { λ once. once.has_ended };

    ghost came = { λ once. Some (record { before = []; piece = if once.has_come then once.bytes.now else []; is_over = once.has_ended }) };

    fn wait(&mut self, _until: Option<u64>) -> Came {
        if self.has_come {
            self.has_ended = true;
            return Came::End;
        }
        self.has_come = true;
        self.has_ended = false;
        Came::Bytes
    }

    fn bytes(&self) -> &[u8] {
        if self.has_come { self.bytes } else { &[] }
    }

    fn now(&self) -> Option<u64> {
        None
    }
}

/// The manifest, which does not change, and the counters between engines.
#[derive(Drop)]
struct SameManifest {
    counted: Option<Metrics>,
}

impl GivenManifest for SameManifest {
    ghost use Rattle.std.specs.Prelude.{⊤};

    ghost may_read = { λ reading. ⊤ };

    fn read_again(&mut self, alloc: Global) -> Result<Option<Vec<u8>>, ManifestUnread> {
        match MANIFEST.as_bytes().to_vec(alloc) {
            Ok(bytes) => Ok(Some(bytes)),
            Err(AllocError) => Err(ManifestUnread::OutOfMemory),
        }
    }
}

impl MetricsFile for SameManifest {
    ghost use Rattle.host_metrics.specs.Counted.{counts_in};

    ghost counts = { λ same. counts_in same.counted };

    fn take_metrics(&mut self, alloc: Global) -> Metrics {
        match self.counted.take() {
            Some(metrics) => metrics,
            None => Metrics::none(alloc),
        }
    }

    fn keep_metrics(&mut self, metrics: Metrics) {
        self.counted = Some(metrics);
    }

    fn is_due(&mut self, _when: Moment) -> bool {
        false
    }

    fn write_metrics(&mut self, _text: Option<&str>) -> Result<(), MetricsUnwritten> {
        Ok(())
    }

    fn metrics_path(&self) -> &str {
        ""
    }
}

// The status of an engine with this journal, of which that is asked, and the journal as it is then.
fn served(alloc: Global, disk: Memory, input: &'static [u8], is_synced: bool) -> (Memory, u8) {
    let manner = Manner {
        is_stepped: false,
        is_told: false,
        is_clocked: false,
        is_kept: true,
    };
    let manifest = Some(("m.toml", MANIFEST.as_bytes()));
    let mut input = Once::of(input);
    let mut err = Vec::new(alloc);
    serve_journal(
        alloc,
        disk,
        "DIR",
        manifest,
        manner,
        is_synced,
        &mut SameManifest { counted: None },
        &mut input,
        &mut err,
    )
}

// Whether an audit accepts the journal, whose last segment is open if a run was live at the end of the input.
fn is_accepted(alloc: Global, disk: &mut Memory) -> bool {
    let mut out = Vec::new(alloc);
    let mut err = Vec::new(alloc);
    let status = audit_journal(alloc, disk, "DIR", &mut out, &mut err);
    let text = out.as_slice();
    let is_told = text.ends_with(b" records, accepted\n")
        || text.ends_with(b" records, accepted, open\n");
    status == 0 && is_told
}

// A copy of so many bytes from the front.
fn front_of(alloc: Global, bytes: &[u8], count: usize) -> Option<Vec<u8>> {
    match bytes.get(..count) {
        Some(front) => front.to_vec(alloc).ok(),
        None => None,
    }
}

// Whether a start after the stop goes on from what stands there whole, in a segment that follows if this one has its end, and puts out just
// what it adds.
fn goes_on(alloc: Global, mut disk: Memory, is_synced: bool) -> Option<bool> {
    disk.restart();
    let from = disk.from;
    let whole = disk.segment();
    let before = front_of(alloc, whole, from)?;
    let (mut disk, status) = served(alloc, disk, MORE, is_synced);
    let from = disk.from;
    let before = before.as_slice().get(..from).unwrap_or(&[]);
    let segment = disk.segment();
    let is_more = segment.starts_with(before) && segment.len() > from;
    let is_told = segment.get(from..) == Some(disk.out.as_slice());
    Some(status == 0 && !disk.is_early && is_more && is_told && is_accepted(alloc, &mut disk))
}

/// The folder stops at each write in turn, of an engine with a journal, which may be synced: whatever came out stands in the segment, the next
/// start goes on from there, and an audit accepts what stands there then.
pub(crate) fn each_write_stopped(alloc: Global, is_synced: bool) -> Option<bool> {
    for left in 0..WRITES {
        let (disk, status) = served(alloc, Memory::new(alloc, left), INPUT, is_synced);
        if disk.is_early || !goes_on(alloc, disk, is_synced)? {
            return Some(false);
        }
        if status == 0 {
            return Some(left > FIRST);
        }
        if status != STOPPED {
            return Some(false);
        }
    }
    Some(false)
}
