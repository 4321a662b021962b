// Runs that workers drive each in one section under the lock, since the gate is open and they are short. That each is driven so no contract
// says: it shows in the history, where the records of a run stand side by side whatever the other workers do. The history replays.

use crate::crew::Crew;
use crate::engines::{MANIFEST, config};
use crate::recoveries::recovers_all;
use engine_lock::{Object, Shared};
use std::alloc::Global;
use std::sync::Wait;
use std::thread::Threads;
use world_calls::{Record, Silent, StoppedAt, Trace};

// How many workers there are, and how many rounds.
const WORKERS: usize = 8;

const ROUNDS: u32 = 50;

// The run that is on its way after a record, if that was not its exit.
fn on_its_way(record: &Record) -> Option<u32> {
    match record {
        Record::Called { answer: _, call: _ } => None,
        Record::Advance {
            run,
            instructions: _,
            stop,
            r0: _,
        } => {
            if matches!(stop, StoppedAt::Exit) {
                None
            } else {
                Some(*run)
            }
        }
    }
}

// Whether the record is of that run, if one is on its way.
fn goes_on(record: &Record, on_its_way: Option<u32>) -> bool {
    let Some(expected) = on_its_way else {
        return true;
    };
    match record {
        Record::Called { answer: _, call: _ } => false,
        Record::Advance {
            run,
            instructions: _,
            stop: _,
            r0: _,
        } => *run == expected,
    }
}

// Whether the records of each run stand side by side, up to its exit.
fn are_side_by_side(trace: &Trace) -> bool {
    let mut run = None;
    for record in trace.records.iter() {
        if !goes_on(record, run) {
            return false;
        }
        run = on_its_way(record);
    }
    run.is_none()
}

// Whether the trace is a history of such an engine. If memory is refused, the same call succeeds the second time.
fn is_replayed(alloc: Global, trace: &Trace) -> Option<bool> {
    let config = config(alloc, MANIFEST)?;
    Some(
        replay::replay(alloc, &config, trace, &Silent).is_ok()
            || replay::replay(alloc, &config, trace, &Silent).is_ok(),
    )
}

/// Whether several workers drive each run in one section.
pub fn drives_at_once<B: Object + Send + Sync, R: Threads + Wait + Sync>(
    rt: &R,
    alloc: Global,
    shared: Shared<B>,
) -> Option<bool> {
    let mut crew = Crew::open(rt, alloc, &shared, WORKERS)?;
    let recovered = recovers_all(rt, &shared, &mut crew, ROUNDS);
    let trace = crew.told(rt, shared)?;
    Some(recovered && are_side_by_side(&trace) && is_replayed(alloc, &trace)?)
}
