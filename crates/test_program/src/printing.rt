// A trace goes to a sink: one that takes few bytes at a time, and one whose write of any number fails.

ghost use Rattle.std.specs.Prelude.{◌≤◌, IfSome};
ghost use Rattle.trace.specs.HasText.{AllHaveText};

use std::alloc::Global;
use trace::{PrintFault, Sink, WriteFailed, print, read};
use world_calls::Trace;

// Sense bytes, traced bytes, and the greatest numbers.
const TEXT: &str = "camr-trace 1\ncomplete 1 0c 02 7000060a = run 1 freeze 1\n\
    advance 2 1 helper 10 00ff = 0\n\
    advance 4294967295 65536 exit = 18446744073709551615\nend 3 1024 4096 256\n";

/// Takes at most so many bytes a write, and fails at one write.
#[derive(Drop)]
struct Counting {
    taken: Vec<u8>,
    most: usize,
    fails_at: u32,
    writes: u32,
    failures: u64,
}

impl Sink for Counting {
    ghost use Rattle.std.specs.Prelude.{Some};

    ghost bytes = { λ sink. Some sink.taken.items };

    ghost failures = { λ sink. sink.failures };

    ghost origin = { λ sink. 0 };

    fn write(&mut self, text: &[u8]) -> Result<usize, WriteFailed> {
        self.writes = self.writes.saturating_add(1);
        let count = taken_of(text.len(), self.most);
        if self.writes != self.fails_at && self.taken.extend_from_slice(&text[..count]).is_ok() {
            return Ok(count);
        }
        self.failures = self.failures.saturating_add(1);
        Err(WriteFailed)
    }
}

// How many of so many bytes are taken: one at least.
fn taken_of(count: usize, most: usize) -> usize
    requires { 1 ≤ count }
    ensures { (1 ≤ result) × (result ≤ count) }
{
    if most == 0 {
        1
    } else if most < count {
        most
    } else {
        count
    }
}

fn sink_of(alloc: Global, most: usize, fails_at: u32) -> Counting {
    Counting {
        taken: Vec::new(alloc),
        most,
        fails_at,
        writes: 0,
        failures: 0,
    }
}

// The trace of the text.
fn trace_of(alloc: Global) -> Option<Trace>
    ensures { IfSome result (λ trace. AllHaveText trace.version trace.records.items) }
{
    match read(alloc, TEXT) {
        Ok(trace) => Some(trace),
        Err(_) => None,
    }
}

// Whether all of the text comes, if a sink takes so many bytes at a time.
fn comes_by(alloc: Global, trace: &Trace, most: usize) -> bool
    requires { AllHaveText trace.now.version trace.now.records.items }
{
    let mut sink = sink_of(alloc, most, 0);
    print(trace, &mut sink).is_ok()
        && sink.taken.as_slice() == TEXT.as_bytes()
        && sink.failures == 0
}

/// However few bytes a sink takes at a time, all of the text comes.
pub fn few_bytes_at_a_time(alloc: Global) -> Option<bool> {
    let trace = trace_of(alloc)?;
    Some(
        comes_by(alloc, &trace, 1)
            && comes_by(alloc, &trace, 2)
            && comes_by(alloc, &trace, 7)
            && comes_by(alloc, &trace, 4096),
    )
}

// Whether a sink failed at the write of this number: what is out is just what was told to be out, the beginning of the text. Nothing is
// told if it is another.
fn fails_at(alloc: Global, trace: &Trace, most: usize, write: u32) -> Option<bool>
    requires { AllHaveText trace.now.version trace.now.records.items }
{
    let mut sink = sink_of(alloc, most, write);
    let (failed, holds) = match print(trace, &mut sink) {
        Ok(()) => (false, sink.taken.as_slice() == TEXT.as_bytes()),
        Err(fault) => {
            let written = sink.taken.len() as u128;
            let begins = TEXT.as_bytes().starts_with(&sink.taken);
            (
                true,
                fault == PrintFault { written } && begins && sink.failures == 1,
            )
        }
    };
    if holds { Some(failed) } else { None }
}

// How many writes there are of so many bytes at most, each of which fails in its turn.
fn writes_of(alloc: Global, trace: &Trace, most: usize) -> Option<u32>
    requires { AllHaveText trace.now.version trace.now.records.items }
{
    let mut failed = 0u32;
    for write in 1..=200 {
        if fails_at(alloc, trace, most, write)? {
            failed = failed.saturating_add(1);
        }
    }
    Some(failed)
}

/// Each write of a small trace fails in its turn: of so many bytes at most there are so many writes.
pub fn each_write_fails_once(alloc: Global) -> Option<bool> {
    let trace = trace_of(alloc)?;
    Some(
        writes_of(alloc, &trace, 1)? == 160
            && writes_of(alloc, &trace, 7)? == 23
            && writes_of(alloc, &trace, 4096)? == 1,
    )
}
