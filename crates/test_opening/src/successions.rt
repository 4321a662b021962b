// What a host sees of an engine that follows another one, and of the lists of its CCBs. Expected values are worked out by hand.

use crate::calling::{
    advance, carried, ccbs, clock, complete, dispatch, drive, freeze_controller, freeze_queue,
    lines, release, renew, submit, succeed, take,
};
use crate::checks::{MANIFEST, engine_of, failed, finished, has_text, is_refused};
use host_embedding::{CallResult, HostedEngine, Numbering, PutLines, RunHandle};
use std::alloc::Global;
use world_calls::CallRefusal;

/// A queue under no controller.
const ALONE: &str = "version = 1

[[queue]]
openings = 1
program = \"p1\"

[[program]]
name = \"p1\"
asm = \"\"\"
jeq r2, 0, requeue
mov64 r1, r2
call 2
requeue:
mov64 r1, 1
call 4
mov64 r0, 7
exit
\"\"\"
";

/// Two queues under a controller, of which the first has an opening more.
const WIDER: &str = "version = 2
controllers = 1

[[queue]]
openings = 2
controller = 0
program = \"p1\"

[[queue]]
openings = 3
controller = 0
program = \"p1\"

[[program]]
name = \"p1\"
asm = \"\"\"
jeq r2, 0, requeue
mov64 r1, r2
call 2
requeue:
mov64 r1, 1
call 4
mov64 r0, 7
exit
\"\"\"
";

/// What the engine of `held` leaves, under the same numbers, and under fresh ones.
const SAME: &str = "camr-trace 2 continued
numbers 3 2 0
clock 9
openings 0 1
ccb 2 0 0 1 1 active
ccb 3 0 0 0 0 waiting
freeze 2 controller 0 guest 6
";

const FRESH: &str = "camr-trace 2 continued
numbers 2 1 0
clock 9
openings 0 1
ccb 1 0 0 1 1 active
ccb 2 0 0 0 0 waiting
freeze 1 controller 0 guest 6
";

/// The same in the engine of WIDER.
const SAME_IN_WIDER: &str = "camr-trace 2 continued
numbers 3 2 0
clock 9
openings 0 2
openings 1 3
ccb 2 0 0 1 1 active
ccb 3 0 0 0 0 waiting
freeze 2 controller 0 guest 6
";

// An engine that ended CCB 1, with CCB 2 active and CCB 3 waiting, whose controller a guest has frozen.
fn held(alloc: Global) -> Option<Box<HostedEngine>> {
    let mut engine = engine_of(alloc)?;
    let it = &mut engine;
    let is_so = submit(it, 0, 1) == (CallResult::Done, 1)
        && dispatch(it, 0) == (CallResult::Done, 1)
        && finished(alloc, it, 1) == CallResult::Done
        && submit(it, 0, 1) == (CallResult::Done, 2)
        && dispatch(it, 0) == (CallResult::Done, 2)
        && submit(it, 0, 0) == (CallResult::Done, 3)
        && freeze_queue(it, 0, 5) == (CallResult::Done, 1)
        && freeze_controller(it, 0, 6) == (CallResult::Done, 2)
        && release(it, 1) == (CallResult::Done, 0)
        && clock(it, 9) == CallResult::Done;
    if is_so { Some(engine) } else { None }
}

// Whether the lines of what was taken over are these.
fn has_carried(engine: &HostedEngine, text: &str) -> bool {
    let mut place = [0; 300];
    let (result, put) = carried(engine, 0, &mut place);
    result == CallResult::Done && has_text(&place, put.written, text)
}

// Whether the active CCB of that number ends, and the one that waits starts once the guest's freeze of that number is given back.
fn goes_on(alloc: Global, engine: &mut HostedEngine, active: u32, waits: u32, freeze: u32) -> bool {
    is_refused(dispatch(engine, 0).0, CallRefusal::NoOpening)
        && finished(alloc, engine, active) == CallResult::Done
        && is_refused(dispatch(engine, 0).0, CallRefusal::ControllerFrozen)
        && release(engine, freeze) == (CallResult::Done, 0)
        && release(engine, freeze).0 == CallResult::NoToken
        && dispatch(engine, 0) == (CallResult::Done, waits)
        && finished(alloc, engine, waits) == CallResult::Done
}

pub fn follows_under_the_same_numbers(alloc: Global) -> Option<bool> {
    let mut engine = held(alloc)?;
    Some(
        renew(alloc, &mut engine, Numbering::Same) == CallResult::Done
            && engine.engine.totals().history == 0
            && engine.engine.totals().frozen == 1
            && engine.engine.totals().active == 1
            && has_carried(&engine, SAME)
            && goes_on(alloc, &mut engine, 2, 3, 2)
            && submit(&mut engine, 0, 0) == (CallResult::Done, 4),
    )
}

pub fn follows_under_fresh_numbers(alloc: Global) -> Option<bool> {
    let mut engine = held(alloc)?;
    Some(
        renew(alloc, &mut engine, Numbering::Fresh) == CallResult::Done
            && has_carried(&engine, FRESH)
            && goes_on(alloc, &mut engine, 1, 2, 1)
            && submit(&mut engine, 0, 0) == (CallResult::Done, 3),
    )
}

// The result of a succession by a manifest's text, and whether the text has no fault.
fn by_text(alloc: Global, engine: &mut HostedEngine, text: &[u8]) -> (CallResult, bool) {
    match succeed(alloc, engine, text, Numbering::Same) {
        Ok(result) => (result, true),
        Err(_) => (CallResult::Faulty, false),
    }
}

/// A queue whose openings the manifests do not agree on has the new ones, and a queue that is new has its own.
pub fn follows_by_another_manifest(alloc: Global) -> Option<bool> {
    let mut engine = held(alloc)?;
    Some(
        by_text(alloc, &mut engine, WIDER.as_bytes()) == (CallResult::Done, true)
            && has_carried(&engine, SAME_IN_WIDER)
            && submit(&mut engine, 1, 0) == (CallResult::Done, 4)
            && release(&mut engine, 2) == (CallResult::Done, 0)
            && dispatch(&mut engine, 0) == (CallResult::Done, 3)
            && dispatch(&mut engine, 1) == (CallResult::Done, 4)
            // An engine that followed is followed again.
            && finished(alloc, &mut engine, 4) == CallResult::Done
            && by_text(alloc, &mut engine, MANIFEST.as_bytes()) == (CallResult::Done, true),
    )
}

// Whether the engine is the one of `held`, of which nothing was asked since.
fn is_as_it_was(engine: &mut HostedEngine) -> bool {
    engine.engine.totals().history == 10
        && release(engine, 2) == (CallResult::Done, 0)
        && release(engine, 1).0 == CallResult::NoToken
}

/// A text of no manifest, and a configuration that lacks what is held.
pub fn refused_successions(alloc: Global) -> Option<bool> {
    let mut engine = held(alloc)?;
    Some(
        by_text(alloc, &mut engine, b"version = 4") == (CallResult::Faulty, false)
            && by_text(alloc, &mut engine, &[0xff]) == (CallResult::NotUtf8, true)
            && by_text(alloc, &mut engine, ALONE.as_bytes()) == (CallResult::DoesNotFit, true)
            && is_as_it_was(&mut engine)
            // With the controller's freeze gone it fits.
            && by_text(alloc, &mut engine, ALONE.as_bytes()) == (CallResult::Done, true),
    )
}

// Whether a live run is told before any fault of the text.
fn is_told_to_be_live(alloc: Global, engine: &mut HostedEngine, run: &mut RunHandle) -> bool {
    renew(alloc, engine, Numbering::Same) == CallResult::RunsLive
        && by_text(alloc, engine, &[0xff]) == (CallResult::RunsLive, true)
        && by_text(alloc, engine, b"version = 4") == (CallResult::RunsLive, true)
        && advance(engine, run) == (CallResult::NotStretched, None)
        && drive(engine, run) == (CallResult::Done, Some(7))
        && renew(alloc, engine, Numbering::Same) == CallResult::Done
}

pub fn a_live_run_is_told_first(alloc: Global) -> Option<bool> {
    let mut engine = engine_of(alloc)?;
    let mut run = failed(alloc, &mut engine)?;
    Some(is_told_to_be_live(alloc, &mut engine, &mut run))
}

// Whether so many bytes are put from that line on, and where to go on.
fn puts(engine: &HostedEngine, place: &mut [u8], from: u64, written: usize, next: u64) -> bool {
    carried(engine, from, place) == (CallResult::Done, PutLines { written, next })
}

/// Lines go on where there was room before, up to the first record.
pub fn carried_lines_go_on(alloc: Global) -> Option<bool> {
    let mut engine = held(alloc)?;
    let (mut place, mut first) = ([0; 37], [0; 36]);
    let none = carried(&engine, 0, &mut place).0 == CallResult::Taken;
    let followed = renew(alloc, &mut engine, Numbering::Same) == CallResult::Done;
    Some(
        none && followed
            && carried(&engine, 0, &mut first).0 == CallResult::NoRoom
            && puts(&engine, &mut place, 0, 37, 1)
            && puts(&engine, &mut place, 1, 21, 3)
            && puts(&engine, &mut place, 3, 21, 4)
            && puts(&engine, &mut place, 4, 22, 5)
            && puts(&engine, &mut place, 5, 30, 6)
            && puts(&engine, &mut place, 6, 0, 6)
            && puts(&engine, &mut place, 9, 0, 9)
            && take(&mut engine, &mut place).1.written == 0
            && puts(&engine, &mut place, 0, 37, 1)
            && clock(&mut engine, 10) == CallResult::Done
            && carried(&engine, 0, &mut place).0 == CallResult::Taken,
    )
}

/// The records of an engine that follows have no first line of their own.
pub fn records_follow_the_carried_lines(alloc: Global) -> Option<bool> {
    let mut engine = held(alloc)?;
    let followed = renew(alloc, &mut engine, Numbering::Same) == CallResult::Done;
    let clocked = clock(&mut engine, 10) == CallResult::Done;
    let mut place = [0; 40];
    let (put, at) = lines(&engine, 0, &mut place);
    let told = put == CallResult::Done && has_text(&place, at.written, "clock 10 = 0\n");
    let (taken, at) = take(&mut engine, &mut place);
    Some(
        followed
            && clocked
            && told
            && taken == CallResult::Done
            && has_text(&place, at.written, "clock 10 = 0\n")
            && carried(&engine, 0, &mut place).0 == CallResult::Taken,
    )
}

/// CCBs in places that are too small, and from a number on.
pub fn ccbs_are_listed(alloc: Global) -> Option<bool> {
    let engine = held(alloc)?;
    let (mut numbers, mut states) = ([9; 3], [9; 3]);
    let all = ccbs(&engine, 0, &mut numbers, &mut states) == 2
        && numbers == [2, 3, 9]
        && states == [2, 1, 9];
    let later = ccbs(&engine, 3, &mut numbers, &mut states) == 1
        && numbers == [3, 3, 9]
        && states == [1, 1, 9];
    let none = ccbs(&engine, 4, &mut numbers, &mut states) == 0;
    let (mut few, mut fewer) = ([9; 1], [9; 0]);
    Some(
        all && later
            && none
            && ccbs(&engine, 1, &mut few, &mut states) == 1
            && few == [2]
            && ccbs(&engine, 1, &mut numbers, &mut fewer) == 0
            && numbers == [3, 3, 9],
    )
}

/// One that a run decides on is in recovery.
pub fn a_ccb_in_recovery_is_listed(alloc: Global) -> Option<bool> {
    let mut engine = engine_of(alloc)?;
    let _ = failed(alloc, &mut engine)?;
    let (mut numbers, mut states) = ([0; 2], [0; 2]);
    Some(ccbs(&engine, 1, &mut numbers, &mut states) == 1 && numbers == [1, 0] && states == [3, 0])
}
