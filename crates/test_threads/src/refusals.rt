// A CCB that ends with sense data is recovered by one seat, whichever call for memory is refused. What the service keeps is settled: a run
// that is parked is resumed and driven to its end, and a completion is put back and served again. What is told is what is told if
// nothing is refused, but for the lines of a park and its resume.

use crate::asking::{are_sums, ends, given, given_by, is_ccb, run_of};
use crate::crew::Crew;
use crate::engines::QUEUE;
use ccb::{CamStatus, CcbId, Completion};
use engine_core::{Event, Reply, Success};
use engine_lock::{Caller, Object, Shared};
use monitor::Watch;
use std::alloc::Global;
use std::sync::Wait;
use std::thread::Threads;
use trace::print_entry;
use trace_lines::Text;
use world_calls::{Call, Record, Totals, Trace};

/// Two openings, and a policy that gives the freeze back and lets the CCB wait again. None of its stops takes memory.
pub const PLAIN_MANIFEST: &str =
    "version = 1\n[[queue]]\nopenings = 2\nprogram = \"p1\"\n[[program]]\nname = \"p1\"\nasm = \"\"\"\n\
    jeq r2, 0, requeue\nmov64 r1, r2\ncall 2\nrequeue:\nmov64 r1, 1\ncall 4\nmov64 r0, 0\nexit\n\"\"\"\n";

// What is told of it.
const LINES: &str = "submit 0 10 3 = ccb 1\ndispatch 0 = ccb 1\n\
    complete 1 0c 02 700006000000000a00000000290000000000 = run 1 freeze 1\nadvance 1 3 helper 2 = 0\n\
    advance 1 2 helper 4 = 0\nadvance 1 2 exit = 0\n";

/// The same policy, but first it puts eight bytes into the history, which takes memory.
pub const TRACING_MANIFEST: &str =
    "version = 1\n[[queue]]\nopenings = 2\nprogram = \"p1\"\n[[program]]\nname = \"p1\"\nasm = \"\"\"\n\
    mov64 r6, r2\nmov64 r1, 7\nstxdw [r10-8], r1\nmov64 r1, r10\nadd64 r1, -8\nmov64 r2, 8\ncall 10\n\
    jeq r6, 0, requeue\nmov64 r1, r6\ncall 2\nrequeue:\nmov64 r1, 1\ncall 4\nmov64 r0, 0\nexit\n\"\"\"\n";

const TRACED_LINES: &str = "submit 0 10 3 = ccb 1\ndispatch 0 = ccb 1\n\
    complete 1 0c 02 700006000000000a00000000290000000000 = run 1 freeze 1\n\
    advance 1 7 helper 10 0700000000000000 = 0\nadvance 1 3 helper 2 = 0\n\
    advance 1 2 helper 4 = 0\nadvance 1 2 exit = 0\n";

// How many lines these are.
const LINE_COUNT: u64 = 6;

const TRACED_LINE_COUNT: u64 = 7;

// Fixed-format sense data: UNIT ATTENTION, power on, reset, or bus device reset occurred.
const SENSE: [u8; 18] = [0x70, 0, 6, 0, 0, 0, 0, 10, 0, 0, 0, 0, 0x29, 0, 0, 0, 0, 0];

// How often it is served at most: once more if a completion is left.
const SERVICES: u32 = 2;

// What is asked of the engine beside a service.
#[derive(Clone, Copy)]
enum Asked {
    Submit,
    Dispatch,
    Resume(u32),
}

fn event_of(asked: Asked) -> Event<'static> {
    match asked {
        Asked::Submit => Event::Submit {
            queue: QUEUE,
            priority: 10,
            retries: 3,
            class: 0,
        },
        Asked::Dispatch => Event::Dispatch { queue: QUEUE },
        Asked::Resume(run) => Event::Resume { run },
    }
}

// The shared engine's sums, without the clauses of `read`.
fn sums<B: Object, R: Wait>(rt: &R, shared: &Shared<B>, watch: &mut Watch<B>) -> Totals {
    shared.monitor().read(rt, watch)
}

// What the engine gives. If memory is refused the sums are as before, and the same call succeeds the second time.
fn ask<B: Object, R: Wait>(
    rt: &R,
    shared: &Shared<B>,
    watch: &mut Watch<B>,
    caller: &mut Caller<B>,
    asked: Asked,
) -> Option<Success> {
    let before = sums(rt, shared, watch);
    match shared.call(rt, caller, event_of(asked)) {
        Reply::OutOfMemory(back) => {
            back.forfeit();
            if sums(rt, shared, watch) == before {
                given(rt, shared, caller, event_of(asked))
            } else {
                None
            }
        }
        reply => given_by(reply),
    }
}

// Drives the run of that number to its end, once it is resumed.
fn finishes<B: Object, R: Wait>(
    rt: &R,
    shared: &Shared<B>,
    watch: &mut Watch<B>,
    caller: &mut Caller<B>,
    number: u32,
) -> bool {
    match run_of(ask(rt, shared, watch, caller, Asked::Resume(number))) {
        Some(run) => ends(rt, shared, caller, run),
        None => false,
    }
}

// Serves, and makes an end of what is kept: a run ends, and a completion is put back.
fn serves_once<B: Object + Send + Sync, R: Threads + Wait + Sync>(
    rt: &R,
    shared: &Shared<B>,
    watch: &mut Watch<B>,
    crew: &mut Crew<B>,
) -> bool {
    match crew.serve_settled(rt, shared) {
        Some(run) => finishes(rt, shared, watch, &mut crew.caller, run),
        None => true,
    }
}

// Serves until no CCB is active and no run is live.
fn serves_out<B: Object + Send + Sync, R: Threads + Wait + Sync>(
    rt: &R,
    shared: &Shared<B>,
    watch: &mut Watch<B>,
    crew: &mut Crew<B>,
) -> bool {
    let mut finished = true;
    for _ in 0..SERVICES {
        let left = sums(rt, shared, watch);
        if left.active != 0 || left.runs != 0 {
            finished = serves_once(rt, shared, watch, crew) && finished;
        }
    }
    finished
}

// A CCB is submitted and started.
fn begins<B: Object, R: Wait>(
    rt: &R,
    shared: &Shared<B>,
    watch: &mut Watch<B>,
    caller: &mut Caller<B>,
) -> bool {
    is_ccb(ask(rt, shared, watch, caller, Asked::Submit))
        && is_ccb(ask(rt, shared, watch, caller, Asked::Dispatch))
}

// The CCB fails.
fn puts_failure<B: Object, R: Wait>(rt: &R, crew: &mut Crew<B>) -> bool {
    match Completion::new(CcbId(1), CamStatus::ScsiStatusError, 2, &SENSE) {
        Some(failed) => crew.put(rt, failed),
        None => false,
    }
}

// The history of a recovery by one seat.
fn recovery<B: Object + Send + Sync, R: Threads + Wait + Sync>(
    rt: &R,
    alloc: Global,
    shared: Shared<B>,
) -> Option<Trace> {
    let mut crew = Crew::open(rt, alloc, &shared, 1)?;
    let mut watch = shared.watch(rt);
    let recovers = begins(rt, &shared, &mut watch, &mut crew.caller)
        && puts_failure(rt, &mut crew)
        && serves_out(rt, &shared, &mut watch, &mut crew);
    let trace = crew.told(rt, shared)?;
    if recovers { Some(trace) } else { None }
}

fn is_park_or_resume(record: &Record) -> bool {
    match record {
        Record::Called { answer: _, call } => matches!(
            call,
            Call::Park { run: _ } | Call::Resume { run: _ }
        ),
        Record::Advance {
            run: _,
            instructions: _,
            stop: _,
            r0: _,
        } => false,
    }
}

// What follows the record's line in a text that begins with it.
fn after<'a>(text: &'a [u8], record: &Record) -> Option<&'a [u8]> {
    let mut line = Text::none();
    if print_entry(record, &mut line).is_err() {
        return None;
    }
    text.strip_prefix(line.as_slice())?
        .strip_prefix(b"\n".as_slice())
}

// Whether the records have these lines, but for parks and resumes.
fn have_lines(trace: &Trace, lines: &str) -> bool {
    let mut rest = lines.as_bytes();
    for record in trace.records.iter() {
        if !is_park_or_resume(record) {
            match after(rest, record) {
                Some(next) => rest = next,
                None => return false,
            }
        }
    }
    rest.is_empty()
}

// Whether beside these lines, of which there are so many, a park and its resume are told at most, and nothing is left in the end.
fn is_told(trace: &Trace, lines: &str, least: u64) -> bool {
    let many = trace.records.len() as u64;
    have_lines(trace, lines)
        && (many == least || many == least.saturating_add(2))
        && are_sums(&trace.totals, many, 0, 0, 0)
}

/// Whether a recovery by the plain policy is told. Which call for memory is refused is set from outside: it may be the one that a
/// completion takes, so that it is served again.
pub fn is_plainly_told<B: Object + Send + Sync, R: Threads + Wait + Sync>(
    rt: &R,
    alloc: Global,
    shared: Shared<B>,
) -> Option<bool> {
    let trace = recovery(rt, alloc, shared)?;
    Some(is_told(&trace, LINES, LINE_COUNT))
}

/// The same by the policy that traces. The call for memory that is refused may be the one that the traced bytes take, so that the run is
/// parked and resumed.
pub fn is_traced<B: Object + Send + Sync, R: Threads + Wait + Sync>(
    rt: &R,
    alloc: Global,
    shared: Shared<B>,
) -> Option<bool> {
    let trace = recovery(rt, alloc, shared)?;
    Some(is_told(&trace, TRACED_LINES, TRACED_LINE_COUNT))
}

/// If no memory is refused no run of that policy is parked.
pub fn parks_none<B: Object + Send + Sync, R: Threads + Wait + Sync>(
    rt: &R,
    alloc: Global,
    shared: Shared<B>,
) -> Option<bool> {
    let trace = recovery(rt, alloc, shared)?;
    Some(are_sums(&trace.totals, TRACED_LINE_COUNT, 0, 0, 0))
}
