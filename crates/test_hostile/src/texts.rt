// Manifests and traces that end too early, and traces with one byte changed: each is read or refused, what is read is printed again as it
// stood, and a replay accepts it or names a line.

ghost use Rattle.std.specs.Prelude.{None};
ghost use Rattle.trace.specs.HasText.{AllHaveText};

use base::OrMemory;
use manifest::Manifest;
use std::alloc::{AllocError, Global};
use trace::{Sink, WriteFailed};
use world_calls::{Silent, Trace};

const TWO_PROGRAMS: &str =
    "version = 1\n[[queue]]\nopenings = 2\nprogram = \"by_code\"\n[[queue]]\nopenings = 255\nprogram = \"by_asm\"\n\
    [[table]]\nlength = 10\n[[program]]\nname = \"by_code\"\n\
    code = \"1502020000000000bf210000000000008500000002000000b7010000000000008500000004000000b7000000000000009500000000000000\"\n\
    [[program]]\nname = \"by_asm\"\nasm = \"\"\"\njeq r2, 0, requeue\nmov64 r1, r2\ncall 2\nrequeue:\nmov64 r1, 1\ncall 4\n\
    mov64 r0, 0\nexit\n\"\"\"\n";

// One queue, whose policy gives the freeze back and lets the CCB wait again.
const MANIFEST: &str =
    "version = 1\n[[queue]]\nopenings = 2\nprogram = \"p1\"\n[[program]]\nname = \"p1\"\nasm = \"\"\"\n\
    jeq r2, 0, requeue\nmov64 r1, r2\ncall 2\nrequeue:\nmov64 r1, 1\ncall 4\nmov64 r0, 0\nexit\n\"\"\"\n";

// What it tells of a CCB that ends with sense data, whose run is parked and resumed.
const TEXT: &str = "camr-trace 1\nsubmit 0 10 3 = ccb 1\ndispatch 0 = ccb 1\n\
    complete 1 0c 02 700006000000000a00000000290000000000 = run 1 freeze 1\nadvance 1 3 helper 2 = 0\npark 1 = ok\n\
    resume 1 = ok\nadvance 1 2 helper 4 = 0\nadvance 1 2 exit = 0\nend 8 0 0 0\n";

// One queue whose CCBs have classes, and whose policy advises the number 7 too.
const CLASSED_MANIFEST: &str =
    "version = 3\ncontrollers = 1\n[[queue]]\nopenings = 2\ncontroller = 0\nprogram = \"p1\"\n[[program]]\nname = \"p1\"\n\
    asm = \"\"\"\njeq r2, 0, requeue\nmov64 r1, r2\ncall 2\nrequeue:\nmov64 r1, 7\ncall 15\nmov64 r1, 1\ncall 4\n\
    mov64 r0, 0\nexit\n\"\"\"\n";

// What it tells of a CCB that ends with sense data and starts once more, and of two withdrawals.
const CLASSED_TEXT: &str = "camr-trace 3\nsubmit 0 10 3 5 = ccb 1\nsubmit 0 10 3 0 = ccb 2\n\
    dispatch 0 = ccb 1 advice 0\ncomplete 1 0c 02 700006000000000a00000000290000000000 = run 1 freeze 1\n\
    advance 1 3 helper 2 = 0\nadvance 1 2 helper 15 = 0\nadvance 1 2 helper 4 = 0\nadvance 1 2 exit = 0\n\
    dispatch 0 = ccb 1 advice 7\nwithdraw 1 = C3\nwithdraw 2 = ok\nend 11 0 1 0\n";

// What stands in traces, and what does not.
const OTHERS: &[u8; 20] = b"0123456789 \n-=abcCQ~";

// How many texts were read, refused, and of traces accepted by a replay.
#[derive(Clone, Copy, Debug, PartialEq, Eq)]
struct Seen {
    read: u32,
    refused: u32,
    accepted: u32,
}

fn nothing() -> Seen {
    Seen {
        read: 0,
        refused: 0,
        accepted: 0,
    }
}

// A sink that compares with what is wanted.
#[derive(Drop)]
struct Compared<'a> {
    rest: &'a [u8],
    differs: bool,
}

impl<'a> Sink for Compared<'a> {
    ghost use Rattle.std.specs.Prelude.{None};

    ghost bytes = { λ sink. None };

    ghost failures = { λ sink. 0 };

    ghost origin = { λ sink. 0 };

    fn write(&mut self, text: &[u8]) -> Result<usize, WriteFailed> {
        match self.rest.strip_prefix(text) {
            Some(rest) => self.rest = rest,
            None => self.differs = true,
        }
        Ok(text.len())
    }
}

// Whether that is the trace's text.
fn is_printed(trace: &Trace, text: &[u8]) -> bool
    requires { AllHaveText trace.now.version trace.now.records.items }
{
    let mut sink = Compared {
        rest: text,
        differs: false,
    };
    trace::print(trace, &mut sink).is_ok() && sink.rest.is_empty() && !sink.differs
}

fn manifest_of(alloc: Global, text: &str) -> Result<Option<Manifest>, AllocError> {
    match manifest::read(alloc, text) {
        Ok(manifest) => Ok(Some(manifest)),
        Err(OrMemory::Fault(_)) => Ok(None),
        Err(OrMemory::OutOfMemory) => Err(AllocError),
    }
}

// So many bytes of a text in ASCII.
fn front(text: &'static str, count: usize) -> Option<&'static str> {
    text.get(..count)
}

// Reads each front of a manifest: how many are manifests.
fn manifests_in(alloc: Global, text: &'static str) -> Option<u32> {
    let mut read = 0u32;
    for end in 0..=text.len() {
        let is_read = match manifest_of(alloc, front(text, end)?) {
            Ok(manifest) => manifest.is_some(),
            Err(AllocError) => return None,
        };
        if is_read {
            read = read.saturating_add(1);
        }
    }
    Some(read)
}

/// The whole one is a manifest, and that without its last line feed.
pub fn fronts_of_a_manifest(alloc: Global) -> Option<bool> {
    Some(manifests_in(alloc, TWO_PROGRAMS)? == 2)
}

// Reads a text as a trace; prints it again, and replays it. Whether it is printed as it stood.
fn judge(
    alloc: Global,
    manifest: &Manifest,
    text: &str,
    seen: &mut Seen,
) -> Result<bool, AllocError> {
    match trace::read(alloc, text) {
        Ok(trace) => {
            seen.read = seen.read.saturating_add(1);
            let printed = is_printed(&trace, text.as_bytes());
            replay(alloc, manifest, &trace, seen)?;
            Ok(printed)
        }
        Err(OrMemory::Fault(_)) => {
            seen.refused = seen.refused.saturating_add(1);
            Ok(true)
        }
        Err(OrMemory::OutOfMemory) => Err(AllocError),
    }
}

fn replay(
    alloc: Global,
    manifest: &Manifest,
    trace: &Trace,
    seen: &mut Seen,
) -> Result<(), AllocError> {
    match replay::replay(alloc, &manifest.config, trace, &Silent) {
        Ok(()) => {
            seen.accepted = seen.accepted.saturating_add(1);
            Ok(())
        }
        Err(OrMemory::Fault(_)) => Ok(()),
        Err(OrMemory::OutOfMemory) => Err(AllocError),
    }
}

// Judges each front of the trace.
fn judge_fronts(
    alloc: Global,
    manifest: &Manifest,
    whole: &'static str,
    seen: &mut Seen,
) -> Result<bool, AllocError> {
    for end in 0..=whole.len() {
        let Some(text) = front(whole, end) else {
            return Ok(false);
        };
        if !judge(alloc, manifest, text, seen)? {
            return Ok(false);
        }
    }
    Ok(true)
}

// The trace with another byte there, if that is another.
fn changed(
    alloc: Global,
    whole: &str,
    at: usize,
    other: u8,
) -> Result<Option<Vec<u8>>, AllocError> {
    let mut text = Vec::new(alloc);
    text.extend_from_slice(whole.as_bytes())?;
    match text.get_mut(at) {
        Some(byte) if *byte != other => *byte = other,
        _ => return Ok(None),
    }
    Ok(Some(text))
}

// Judges the trace with that byte there, if that is another.
fn judge_changed(
    alloc: Global,
    manifest: &Manifest,
    whole: &str,
    at: usize,
    other: u8,
    seen: &mut Seen,
) -> Result<bool, AllocError> {
    let Some(text) = changed(alloc, whole, at, other)? else {
        return Ok(true);
    };
    match str::from_utf8(&text) {
        Ok(text) => judge(alloc, manifest, text, seen),
        Err(_) => Ok(false),
    }
}

// Judges each byte of the trace by each of the others.
fn judge_all_changed(
    alloc: Global,
    manifest: &Manifest,
    whole: &str,
    seen: &mut Seen,
) -> Result<bool, AllocError> {
    for at in 0..whole.len() {
        for other in OTHERS {
            if !judge_changed(alloc, manifest, whole, at, *other, seen)? {
                return Ok(false);
            }
        }
    }
    Ok(true)
}

// Whether of the fronts of this trace of that manifest the whole one alone is a trace.
fn whole_alone(alloc: Global, manifest: &str, text: &'static str) -> Option<bool> {
    let manifest = manifest_of(alloc, manifest).ok()??;
    let mut seen = nothing();
    let printed = judge_fronts(alloc, &manifest, text, &mut seen).ok()?;
    Some(printed && seen.read == 1 && seen.accepted == 1)
}

/// The whole one alone is a trace: each line ends with a line feed, the last too.
pub fn fronts_of_a_trace(alloc: Global) -> Option<bool> {
    let plain = whole_alone(alloc, MANIFEST, TEXT)?;
    let classed = whole_alone(alloc, CLASSED_MANIFEST, CLASSED_TEXT)?;
    Some(plain && classed)
}

// Whether what is read of the changed traces is printed as it stood, where some are read and some are not.
fn are_judged(alloc: Global, manifest: &str, text: &str) -> Option<bool> {
    let manifest = manifest_of(alloc, manifest).ok()??;
    let mut seen = nothing();
    let printed = judge_all_changed(alloc, &manifest, text, &mut seen).ok()?;
    Some(printed && seen.read > 0 && seen.refused > 0)
}

pub fn one_byte_of_a_trace_changed(alloc: Global) -> Option<bool> {
    let plain = are_judged(alloc, MANIFEST, TEXT)?;
    let classed = are_judged(alloc, CLASSED_MANIFEST, CLASSED_TEXT)?;
    Some(plain && classed)
}
