// What is counted of a host's calls, as a text. Expected lines are worked out by hand.

use crate::calling::{complete, dispatch, drive, metrics, recovered, renew, submit, succeed, take};
use crate::checks::{MANIFEST, engine_of, failed};
use ccb::CamStatus;
use host_embedding::{CallResult, HostedEngine, Numbering};
use std::alloc::Global;

/// How many bytes have room for each text here.
const ROOM: usize = 8192;

/// A trace that goes on where a CCB waits again.
const TRACE: &str = "camr-trace 2
submit 0 0 1 = ccb 1
dispatch 0 = ccb 1
complete 1 0b 00 - = run 1 freeze 1
";

// Whether the text of what is counted has this line.
fn has_line(alloc: Global, engine: &HostedEngine, line: &str) -> bool {
    let mut place = [0; ROOM];
    let (result, count) = metrics(alloc, engine, &mut place);
    if result != CallResult::Done || count > ROOM {
        return false;
    }
    match str::from_utf8(&place[..count]) {
        Ok(text) => text.lines().any(|its| its == line),
        Err(_) => false,
    }
}

// A CCB that failed, was requeued by its run, and is done with when it was started again.
fn recovered_once(alloc: Global, engine: &mut HostedEngine) -> Option<()> {
    let mut run = failed(alloc, engine)?;
    if drive(engine, &mut run) != (CallResult::Done, Some(7)) {
        return None;
    }
    let (_, ccb) = dispatch(engine, 0);
    match complete(alloc, engine, ccb, CamStatus::RequestCompleted) {
        Ok(None) => Some(()),
        Ok(Some(_)) => None,
        Err(_) => None,
    }
}

/// The text of a recovery, as far as it finds room.
pub fn what_is_counted_is_put(alloc: Global) -> Option<bool> {
    let mut engine = engine_of(alloc)?;
    recovered_once(alloc, &mut engine)?;
    let has_refused = dispatch(&mut engine, 0).0
        == CallResult::Refused(world_calls::CallRefusal::NothingWaits);
    let (_, count) = metrics(alloc, &engine, &mut []);
    let mut place = [b'x'; ROOM];
    Some(
        has_refused
            && has_line(alloc, &engine, "camr_records_total 9")
            && has_line(alloc, &engine, "camr_calls_refused_total{refusal=\"Q4\"} 1")
            && has_line(alloc, &engine, "camr_ccbs_started_total{queue=\"0\"} 2")
            && has_line(
                alloc,
                &engine,
                "camr_ccbs_completed_total{queue=\"0\",status=\"0b\"} 1",
            )
            && has_line(alloc, &engine, "camr_requeues_total{queue=\"0\"} 1")
            && has_line(alloc, &engine, "camr_instructions_total{queue=\"0\"} 7")
            && has_line(alloc, &engine, "camr_program_runs_total{program=\"p1\"} 1")
            && has_line(alloc, &engine, "camr_ccbs_active{queue=\"0\"} 0")
            && count > 0
            && count < ROOM
            && metrics(alloc, &engine, &mut place[..count - 1]) == (CallResult::NoRoom, count)
            && place[0] == b'x'
            && metrics(alloc, &engine, &mut place[..count]) == (CallResult::Done, count)
            && place[count - 1] == b'\n'
            && place[count] == b'x',
    )
}

/// Counts go on where an engine follows, and begin at 0 where one is recovered.
pub fn counts_go_on_where_an_engine_follows(alloc: Global) -> Option<bool> {
    let mut engine = engine_of(alloc)?;
    recovered_once(alloc, &mut engine)?;
    take(&mut engine, &mut [0; ROOM]);
    let has_renewed = renew(alloc, &mut engine, Numbering::Fresh) == CallResult::Done;
    let has_followed = match succeed(alloc, &mut engine, MANIFEST.as_bytes(), Numbering::Same) {
        Ok(result) => result == CallResult::Done,
        Err(_) => false,
    };
    submit(&mut engine, 0, 0);
    let Ok(fresh) = recovered(alloc, MANIFEST.as_bytes(), TRACE.as_bytes()) else {
        return None;
    };
    Some(
        has_renewed
            && has_followed
            && has_line(alloc, &engine, "camr_records_total 9")
            && has_line(alloc, &engine, "camr_ccbs_submitted_total{queue=\"0\"} 2")
            && has_line(alloc, &engine, "camr_program_runs_total{program=\"p1\"} 1")
            && has_line(alloc, &engine, "camr_ccbs_waiting{queue=\"0\"} 1")
            && has_line(alloc, &fresh, "camr_records_total 0")
            && has_line(alloc, &fresh, "camr_runs_live 1")
            && has_line(alloc, &fresh, "camr_queue_freezes{queue=\"0\"} 1"),
    )
}
