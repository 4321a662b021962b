// What a host sees of its calls. Expected values are worked out by hand.

use crate::calling::{
    advance, clock, complete, dispatch, drive, end, freeze_controller, freeze_queue, lines,
    live_runs, opened, park, release, resume, stretch, submit, take,
};
use ccb::CamStatus;
use host_embedding::{CallResult, HostedEngine, PutLines, RunHandle};
use host_opening::{OpenFault, put_fault};
use std::alloc::Global;
use world_calls::CallRefusal;

/// One queue, under a controller, with the policy of the README.
pub const MANIFEST: &str = "version = 2
controllers = 1

[[queue]]
openings = 1
controller = 0
program = \"p1\"

[[program]]
name = \"p1\"
asm = \"\"\"
jeq r2, 0, requeue
mov64 r1, r2
call 2
requeue:
mov64 r1, 1
call 4
mov64 r0, 7
exit
\"\"\"
";

/// What a recovery leaves of a trace: a CCB that times out is tried again, with one retry fewer.
pub const TRACE: &str = "camr-trace 2
submit 0 0 1 = ccb 1
dispatch 0 = ccb 1
complete 1 0b 00 - = run 1 freeze 1
advance 1 3 helper 2 = 0
advance 1 2 helper 4 = 0
advance 1 2 exit = 7
";

pub const END: &str = "end 6 0 0 0
";

/// How many results there are.
const RESULTS: u32 = 25;

pub fn engine_of(alloc: Global) -> Option<Box<HostedEngine>> {
    opened(alloc, MANIFEST.as_bytes()).ok()
}

// The CCB that is started, which was submitted before.
fn start(engine: &mut HostedEngine) -> Option<u32> {
    let (submitted, _) = submit(engine, 0, 1);
    let (dispatched, ccb) = dispatch(engine, 0);
    if submitted == CallResult::Done && dispatched == CallResult::Done {
        Some(ccb)
    } else {
        None
    }
}

// A run of a CCB that timed out.
pub fn failed(alloc: Global, engine: &mut HostedEngine) -> Option<Box<RunHandle>> {
    let ccb = start(engine)?;
    match complete(alloc, engine, ccb, CamStatus::CommandTimeout) {
        Ok(run) => run,
        Err(_) => None,
    }
}

// Whether that is refused so.
pub fn is_refused(answer: CallResult, refusal: CallRefusal) -> bool {
    answer == CallResult::Refused(refusal)
}

// Whether so many bytes of the place are that text.
pub fn has_text(place: &[u8], count: usize, text: &str) -> bool {
    match place.get(..count) {
        Some(front) => *front == *text.as_bytes(),
        None => false,
    }
}

// What the compiler lets go to another thread.
fn goes_to_another_thread<T: Send>(_handle: &T) -> bool {
    true
}

pub fn handles_go_from_thread_to_thread(alloc: Global) -> Option<bool> {
    let Ok(engine) = opened(alloc, MANIFEST.as_bytes()) else {
        return None;
    };
    let run = RunHandle::none();
    Some(goes_to_another_thread(&engine) && goes_to_another_thread(&run))
}

// The run is taken to its next stop before the engine takes it over, and then driven to its end.
fn is_driven(engine: &mut HostedEngine, run: &mut RunHandle) -> bool {
    advance(engine, run) == (CallResult::NotStretched, None)
        && stretch(run) == CallResult::Done
        && advance(engine, run) == (CallResult::Done, None)
        && drive(engine, run) == (CallResult::Done, Some(7))
}

// Nothing more comes of it.
fn is_spent(engine: &mut HostedEngine, run: &mut RunHandle) -> bool {
    stretch(run) == CallResult::Spent
        && drive(engine, run) == (CallResult::Spent, None)
        && park(engine, run) == CallResult::Spent
}

// The trace is that of the recovery.
fn is_told(engine: &HostedEngine) -> bool {
    let mut place = [0; 300];
    let (result, put) = lines(engine, 0, &mut place);
    if result != CallResult::Done || put.next != 6 || !has_text(&place, put.written, TRACE) {
        return false;
    }
    let (result, put) = end(engine, &mut place);
    result == CallResult::Done && has_text(&place, put.written, END)
}

pub fn recovers(alloc: Global) -> Option<bool> {
    let mut engine = engine_of(alloc)?;
    let mut run = failed(alloc, &mut engine)?;
    Some(
        run.number == 1
            && run.freeze == 1
            && is_driven(&mut engine, &mut run)
            && is_spent(&mut engine, &mut run)
            && is_told(&engine),
    )
}

// Whether so many bytes are put from that record on, and where to go on.
fn puts(engine: &HostedEngine, place: &mut [u8], from: u64, written: usize, next: u64) -> bool {
    lines(engine, from, place) == (CallResult::Done, PutLines { written, next })
}

/// Lines go on where there was room before, and a line that finds no room is not put.
pub fn lines_go_on(alloc: Global) -> Option<bool> {
    let mut engine = engine_of(alloc)?;
    let _ = failed(alloc, &mut engine)?;
    let mut place = [0; 40];
    let (mut line, mut first, mut last) = ([0; 35], [0; 33], [0; 11]);
    Some(
        puts(&engine, &mut place, 0, 34, 1)
            && puts(&engine, &mut place, 1, 19, 2)
            && puts(&engine, &mut place, 2, 36, 3)
            && puts(&engine, &mut place, 3, 0, 3)
            && lines(&engine, 2, &mut line).0 == CallResult::NoRoom
            && lines(&engine, 0, &mut first).0 == CallResult::NoRoom
            && end(&engine, &mut last).0 == CallResult::NoRoom,
    )
}

// Whether so many bytes are taken, up to that record.
fn takes(engine: &mut HostedEngine, place: &mut [u8], written: usize, next: u64) -> bool {
    take(engine, place) == (CallResult::Done, PutLines { written, next })
}

/// Lines are taken once, where they find room, and a line that was taken is put no more. The sums count all records.
pub fn lines_are_taken_once(alloc: Global) -> Option<bool> {
    let mut engine = engine_of(alloc)?;
    let _ = failed(alloc, &mut engine)?;
    let (mut place, mut first) = ([0; 40], [0; 33]);
    Some(
        take(&mut engine, &mut first).0 == CallResult::NoRoom
            && takes(&mut engine, &mut place, 34, 1)
            && lines(&engine, 0, &mut place).0 == CallResult::Taken
            && takes(&mut engine, &mut place, 19, 2)
            && puts(&engine, &mut place, 2, 36, 3)
            && takes(&mut engine, &mut place, 36, 3)
            && takes(&mut engine, &mut place, 0, 3)
            && engine.engine.totals().history == 3,
    )
}

// What is refused of an engine of which nothing was asked.
fn refuses_first(engine: &mut HostedEngine) -> bool {
    is_refused(submit(engine, 1, 0).0, CallRefusal::Unknown)
        && is_refused(dispatch(engine, 0).0, CallRefusal::NothingWaits)
        && is_refused(clock(engine, 1 << 63), CallRefusal::Limit)
        && clock(engine, 9) == CallResult::Done
        && is_refused(clock(engine, 8), CallRefusal::GoesBack)
}

// The result of a completion without an error, of which no run starts.
pub fn finished(alloc: Global, engine: &mut HostedEngine, ccb: u32) -> CallResult {
    match complete(alloc, engine, ccb, CamStatus::RequestCompleted) {
        Ok(None) => CallResult::Done,
        Ok(Some(_)) => CallResult::NoCompletion,
        Err(result) => result,
    }
}

pub fn refused(alloc: Global) -> Option<bool> {
    let mut engine = engine_of(alloc)?;
    let first = refuses_first(&mut engine);
    let ccb = start(&mut engine)?;
    let (submitted, other) = submit(&mut engine, 0, 0);
    Some(
        first
            && submitted == CallResult::Done
            && is_refused(dispatch(&mut engine, 0).0, CallRefusal::NoOpening)
            && is_refused(finished(alloc, &mut engine, other), CallRefusal::NotActive)
            && finished(alloc, &mut engine, ccb) == CallResult::Done,
    )
}

/// A guest's freezes go by their numbers.
pub fn freezes_by_number(alloc: Global) -> Option<bool> {
    let mut engine = engine_of(alloc)?;
    Some(
        submit(&mut engine, 0, 0).0 == CallResult::Done
            && freeze_queue(&mut engine, 0, 5) == (CallResult::Done, 1)
            && freeze_controller(&mut engine, 0, 5) == (CallResult::Done, 2)
            && is_refused(dispatch(&mut engine, 0).0, CallRefusal::Frozen)
            && release(&mut engine, 1) == (CallResult::Done, 0)
            && release(&mut engine, 1).0 == CallResult::NoToken
            && is_refused(dispatch(&mut engine, 0).0, CallRefusal::ControllerFrozen)
            && release(&mut engine, 2).0 == CallResult::Done
            && dispatch(&mut engine, 0).0 == CallResult::Done,
    )
}

// Another engine has not given the run out; the one that has parks it.
fn is_parked(engine: &mut HostedEngine, other: &mut HostedEngine, run: &mut RunHandle) -> bool {
    stretch(run) == CallResult::Done
        && advance(other, run) == (CallResult::NotOut, None)
        && park(other, run) == CallResult::NotOut
        && stretch(run) == CallResult::Done
        && park(engine, run) == CallResult::Done
        && stretch(run) == CallResult::Spent
}

// Whether no run of that number is parked.
fn is_unknown(alloc: Global, engine: &mut HostedEngine, run: u32) -> bool {
    match resume(alloc, engine, run) {
        Ok(_) => false,
        Err(result) => is_refused(result, CallRefusal::Unknown),
    }
}

pub fn parks(alloc: Global) -> Option<bool> {
    let mut engine = engine_of(alloc)?;
    let mut other = engine_of(alloc)?;
    let mut run = failed(alloc, &mut engine)?;
    let parked = is_parked(&mut engine, &mut other, &mut run) && is_unknown(alloc, &mut engine, 2);
    let Ok(mut again) = resume(alloc, &mut engine, 1) else {
        return None;
    };
    Some(
        parked
            && drive(&mut engine, &mut again) == (CallResult::Done, Some(7))
            && live_runs(&engine) == 0,
    )
}

/// A manifest that is not UTF-8, and one of a version that there is not.
pub fn faulty_manifests(alloc: Global) -> Option<bool> {
    let is_not_utf8 = matches!(&opened(alloc, &[0xff]), Err(OpenFault::NotUtf8));
    let mut place = [0; 10];
    match opened(alloc, b"version = 4") {
        Err(OpenFault::Manifest(fault)) => {
            let count = put_fault(alloc, &fault, &mut place);
            Some(is_not_utf8 && has_text(&place, count, "M2"))
        }
        _ => None,
    }
}

/// Each number up to the last is that of a result, which has a text.
pub fn results_have_texts() -> bool {
    let mut found = 0u32;
    for number in 0..30 {
        if let Some(result) = CallResult::numbered(number) {
            if result.number() != number || result.text().is_empty() {
                return false;
            }
            found = found.wrapping_add(1);
        }
    }
    found == RESULTS && CallResult::numbered(RESULTS).is_none()
}
