// What a host sees of an engine that was recovered. Expected values are worked out by hand.

use crate::calling::{
    carried, clock, drive, fault_text, lines, recovered, release, renew, resume, take, take_run,
    totals,
};
use crate::checks::{END, MANIFEST, TRACE, finished, has_text};
use host_embedding::{CallResult, HostedEngine, Numbering, RunHandle};
use host_opening::RecoverFault;
use std::alloc::Global;

/// Up to the first stop of a run. What stands after the last line feed is cut off.
const RUN_OUT: &str = "camr-trace 2
submit 0 0 1 = ccb 1
dispatch 0 = ccb 1
complete 1 0b 00 - = run 1 freeze 1
advance 1 3 helper 2 = 0
advance 1 2 hel";

/// What that run does after its first stop.
const GOES_ON: &str = "advance 1 2 helper 4 = 0
advance 1 2 exit = 7
";

/// Two runs, of which the first is parked, and the second is out.
const TWO_RUNS: &str = "camr-trace 2
submit 0 0 1 = ccb 1
dispatch 0 = ccb 1
complete 1 0b 00 - = run 1 freeze 1
advance 1 3 helper 2 = 0
advance 1 2 helper 4 = 0
dispatch 0 = ccb 1
complete 1 0b 00 - = run 2 freeze 2
park 1 = ok
";

/// Two runs that are out: the first was parked, and goes on after the second one started.
const BOTH_OUT: &str = "camr-trace 2
submit 0 0 1 = ccb 1
dispatch 0 = ccb 1
complete 1 0b 00 - = run 1 freeze 1
advance 1 3 helper 2 = 0
advance 1 2 helper 4 = 0
park 1 = ok
dispatch 0 = ccb 1
complete 1 0b 00 - = run 2 freeze 2
resume 1 = ok
";

/// A guest has frozen the queue, and another one the controller.
const FROZEN: &str = "camr-trace 2
gfreeze 0 5 = freeze 1
cfreeze 0 6 = freeze 2
grelease 1 = 0
";

/// What an engine left to the next one.
const CONTINUED: &str = "camr-trace 2 continued
numbers 3 2 0
clock 9
openings 0 1
ccb 2 0 0 1 1 active
ccb 3 0 0 0 0 waiting
freeze 2 controller 0 guest 6
";

/// A call of the next one.
const CLOCK: &str = "clock 10 = 0
";

// The engine that the text leads to.
fn engine_at(alloc: Global, text: &str) -> Option<Box<HostedEngine>> {
    match recovered(alloc, MANIFEST.as_bytes(), text.as_bytes()) {
        Ok(engine) => Some(engine),
        Err(_) => None,
    }
}

// The engine that two texts lead to, one after the other.
fn engine_after(alloc: Global, front: &str, rest: &str) -> Option<Box<HostedEngine>> {
    match format!(in alloc; "{front}{rest}") {
        Ok(text) => engine_at(alloc, text.as_str()),
        Err(_) => None,
    }
}

// Whether the lines that are taken are these.
fn takes(engine: &mut HostedEngine, text: &str) -> bool {
    let mut place = [0; 800];
    let (result, put) = take(engine, &mut place);
    result == CallResult::Done && has_text(&place, put.written, text)
}

// Whether no run is left to be taken.
fn none_is_left(engine: &mut HostedEngine) -> bool {
    take_run(engine).is_none()
}

// Whether it is the run of that number, started with that freeze, and ends with R0 7.
fn ends(engine: &mut HostedEngine, run: &mut RunHandle, number: u32, freeze: u32) -> bool {
    run.number == number
        && run.freeze == freeze
        && drive(engine, run) == (CallResult::Done, Some(7))
}

/// A trace without records. The header is taken with the first record.
pub fn recovers_an_empty_trace(alloc: Global) -> Option<bool> {
    let mut engine = engine_at(alloc, "camr-trace 2\n")?;
    let is_empty = totals(&engine) == (0, 0, 0, 0) && none_is_left(&mut engine);
    let it: &mut HostedEngine = &mut engine;
    Some(
        is_empty
            && carried(it, 0, &mut [0; 800]).0 == CallResult::Taken
            && clock(it, 10) == CallResult::Done
            && takes(it, "camr-trace 2\nclock 10 = 0\n"),
    )
}

/// A run stands after its last recorded stop, and is taken once.
pub fn recovers_a_run_that_is_out(alloc: Global) -> Option<bool> {
    let mut engine = engine_at(alloc, RUN_OUT)?;
    let mut run = take_run(&mut engine)?;
    Some(
        totals(&engine) == (4, 0, 0, 1)
            && none_is_left(&mut engine)
            && lines(&engine, 3, &mut [0; 800]).0 == CallResult::Taken
            && takes(&mut engine, "")
            && ends(&mut engine, &mut run, 1, 1)
            && takes(&mut engine, GOES_ON),
    )
}

/// A run that is parked is resumed, and not taken.
pub fn recovers_a_parked_run(alloc: Global) -> Option<bool> {
    let mut engine = engine_at(alloc, TWO_RUNS)?;
    let mut second = take_run(&mut engine)?;
    let is_alone = none_is_left(&mut engine);
    let it: &mut HostedEngine = &mut engine;
    let is_ended = ends(it, &mut second, 2, 2);
    match resume(alloc, it, 1) {
        Ok(mut first) => Some(is_alone && is_ended && ends(it, &mut first, 1, 0)),
        Err(_) => Some(false),
    }
}

/// Runs are taken by rising number.
pub fn takes_runs_in_order(alloc: Global) -> Option<bool> {
    let mut engine = engine_at(alloc, BOTH_OUT)?;
    let mut first = take_run(&mut engine)?;
    let mut second = take_run(&mut engine)?;
    Some(
        none_is_left(&mut engine)
            && ends(&mut engine, &mut second, 2, 2)
            && ends(&mut engine, &mut first, 1, 0),
    )
}

/// Guests hold their freezes under their numbers.
pub fn recovers_guests_freezes(alloc: Global) -> Option<bool> {
    let mut engine = engine_at(alloc, FROZEN)?;
    let it: &mut HostedEngine = &mut engine;
    Some(
        totals(it) == (3, 1, 0, 0)
            && release(it, 1).0 == CallResult::NoToken
            && release(it, 2) == (CallResult::Done, 0)
            && takes(it, "grelease 2 = 0\n"),
    )
}

/// A trace with its last line. Another engine may follow.
pub fn recovers_an_ended_trace(alloc: Global) -> Option<bool> {
    let mut engine = engine_after(alloc, TRACE, END)?;
    let is_whole = totals(&engine) == (6, 0, 0, 0) && none_is_left(&mut engine);
    Some(
        is_whole
            && renew(alloc, &mut engine, Numbering::Same) == CallResult::Done
            && totals(&engine) == (0, 0, 0, 0),
    )
}

/// Carried lines are there until the first record, also one that is recovered.
pub fn recovers_a_continued_trace(alloc: Global) -> Option<bool> {
    let mut place = [0; 800];
    let fresh = engine_at(alloc, CONTINUED)?;
    let (result, put) = carried(&fresh, 0, &mut place);
    let has_lines = result == CallResult::Done && has_text(&place, put.written, CONTINUED);
    let mut engine = engine_after(alloc, CONTINUED, CLOCK)?;
    let it: &mut HostedEngine = &mut engine;
    Some(
        has_lines
            && totals(&fresh) == (0, 1, 1, 0)
            && totals(it) == (1, 1, 1, 0)
            && carried(it, 0, &mut place).0 == CallResult::Taken
            && finished(alloc, it, 2) == CallResult::Done
            && release(it, 2) == (CallResult::Done, 0)
            && takes(it, "complete 2 01 00 - = done\ngrelease 2 = 0\n"),
    )
}

// Whether the two texts have a fault with this text.
fn is_faulty(alloc: Global, manifest: &str, text: &[u8], told: &str) -> bool {
    let mut place = [0; 40];
    match recovered(alloc, manifest.as_bytes(), text) {
        Ok(_) => false,
        Err(fault) => {
            let written = fault_text(alloc, &fault, &mut place);
            has_text(&place, written, told)
        }
    }
}

// The same of a text over the manifest of the checks.
fn has_fault(alloc: Global, text: &[u8], told: &str) -> bool {
    is_faulty(alloc, MANIFEST, text, told)
}

/// Each fault of a trace, in the order of a replay.
pub fn faulty_traces(alloc: Global) -> Option<bool> {
    let _room = engine_at(alloc, "camr-trace 2\n")?;
    Some(
        has_fault(alloc, b"", "X1 at 1")
            && has_fault(alloc, b"camr-trace 2", "X1 at 1")
            && has_fault(alloc, b"camr-trace 9\nclock\n", "X1 at 1")
            && has_fault(alloc, b"camr-trace 2\nclock 5 = 1\nclock\n", "X2 at 3")
            && has_fault(
                alloc,
                b"camr-trace 2\nend 0 0 0 0\nclock 5 = 0\n",
                "X2 at 3",
            )
            && has_fault(alloc, b"camr-trace 1\nclock 5 = 1\n", "X3 at 1")
            && has_fault(
                alloc,
                b"camr-trace 2\nclock 5 = 1\nclock 5 = 2\n",
                "X3 at 2",
            )
            && has_fault(
                alloc,
                b"camr-trace 2\nclock 5 = 0\nend 0 0 0 0\n",
                "X3 at 3",
            )
            && has_fault(alloc, b"camr-trace 2\nclock 5 = 0\n\0\0", "X2 at 3")
            && has_fault(alloc, b"camr-trace 2\nend 0 0 0 0\ncl", "X2 at 3"),
    )
}

/// A carried line with which no engine of the manifest begins comes before a record that does not follow, and after the version.
pub fn faulty_carried_lines(alloc: Global) -> Option<bool> {
    let _room = engine_at(alloc, "camr-trace 2\n")?;
    let lines =
        b"camr-trace 2 continued\nnumbers 0 0 0\nclock 0\nopenings 0 1\nword 0 0 5\nclock 5 = 1\n";
    let other =
        b"camr-trace 1 continued\nnumbers 0 0 0\nclock 0\nopenings 0 1\nword 0 0 5\nclock 5 = 1\n";
    let cut = b"camr-trace 2 continued\nnumbers 0 0 0\nclock 0\nopen";
    let order = b"camr-trace 2 continued\nclock 0\nnumbers 0 0 0\n";
    Some(
        has_fault(alloc, lines, "X4 at 5")
            && has_fault(alloc, other, "X3 at 1")
            && has_fault(alloc, cut, "X4 at 4")
            && has_fault(alloc, order, "X2 at 2"),
    )
}

/// A fault of the manifest comes before one of the trace, and the trace has to be UTF-8.
pub fn faulty_manifests_come_first(alloc: Global) -> Option<bool> {
    let _room = engine_at(alloc, "camr-trace 2\n")?;
    let manifest = MANIFEST.as_bytes();
    Some(
        is_faulty(alloc, "version = 4", b"camr", "M2")
            && matches!(
                recovered(alloc, &[0xff], b"camr"),
                Err(RecoverFault::NotUtf8)
            )
            && matches!(
                recovered(alloc, manifest, &[0xff]),
                Err(RecoverFault::NotUtf8)
            ),
    )
}
