// What a caller asks a shared engine beside a service, what it is given, and how the sharing ends.

use engine_core::{Engine, Event, Reply, Run, Success};
use engine_lock::{Caller, Object, Shared, Unclosed};
use std::sync::Wait;
use workers::{Open, Undriven, drive};
use world_calls::{Totals, Trace};

/// What a reply gives; nothing if it gives nothing.
pub fn given_by(reply: Reply) -> Option<Success> {
    match reply {
        Reply::Success(given) => Some(given),
        other => {
            other.forfeit();
            None
        }
    }
}

/// What the engine gives for an event; nothing if it gives nothing.
pub fn given<B: Object, R: Wait>(
    rt: &R,
    shared: &Shared<B>,
    caller: &mut Caller<B>,
    event: Event<'_>,
) -> Option<Success> {
    given_by(shared.call(rt, caller, event))
}

/// Whether a CCB is given.
pub fn is_ccb(given: Option<Success>) -> bool {
    match given {
        Some(Success::Ccb(_)) => true,
        Some(other) => {
            other.forfeit();
            false
        }
        None => false,
    }
}

/// The run that is given.
pub fn run_of(given: Option<Success>) -> Option<Run> {
    match given? {
        Success::Started(run, _) | Success::Resumed(run) => Some(run),
        other => {
            other.forfeit();
            None
        }
    }
}

/// Drives a run to its end. Whether it came there.
pub fn ends<B: Object, R: Wait>(
    rt: &R,
    shared: &Shared<B>,
    caller: &mut Caller<B>,
    run: Run,
) -> bool {
    match drive(rt, shared, &Open, caller, run) {
        Ok(()) => true,
        Err(Undriven { run, why: _ }) => {
            run.forfeit();
            false
        }
    }
}

/// One caller more.
pub fn caller_of<B: Object, R: Wait>(rt: &R, shared: &Shared<B>) -> Option<Caller<B>> {
    match shared.caller(rt) {
        Ok(caller) => Some(caller),
        Err(_) => None,
    }
}

/// Puts a caller after the others. If memory is refused twice it is forfeited, and the engine cannot be closed then.
pub fn put_in<B: Object>(callers: &mut Vec<Caller<B>>, caller: Caller<B>) {
    if let Err(failed) = callers.push(caller) {
        if let Err(failed) = callers.push(failed.value) {
            failed.value.forfeit();
        }
    }
}

// The engine's sums, without the clauses of `totals`. The engine is let go: as a local it makes a function dear to prove.
fn totals_of(engine: Engine) -> Totals {
    engine.totals()
}

// Its whole history, without the clauses of `shut`.
fn shut(engine: Engine) -> Trace {
    engine.shut()
}

/// The sums in the end, if these are all callers; else all comes back.
pub fn close<B: Object, R: Wait>(
    rt: &R,
    shared: Shared<B>,
    callers: Vec<Caller<B>>,
) -> Result<Totals, Unclosed<B>> {
    match shared.close(rt, callers) {
        Ok(engine) => Ok(totals_of(engine)),
        Err(unclosed) => Err(unclosed),
    }
}

/// The same. What comes back is spent.
pub fn closed<B: Object, R: Wait>(
    rt: &R,
    shared: Shared<B>,
    callers: Vec<Caller<B>>,
) -> Option<Totals> {
    match close(rt, shared, callers) {
        Ok(totals) => Some(totals),
        Err(unclosed) => {
            unclosed.forfeit();
            None
        }
    }
}

/// The whole history, if these are all callers.
pub fn told<B: Object, R: Wait>(
    rt: &R,
    shared: Shared<B>,
    callers: Vec<Caller<B>>,
) -> Option<Trace> {
    match shared.close(rt, callers) {
        Ok(engine) => Some(shut(engine)),
        Err(unclosed) => {
            unclosed.forfeit();
            None
        }
    }
}

/// Whether these are the sums.
pub fn are_sums(totals: &Totals, history: u64, frozen: u32, active: u32, runs: u32) -> bool {
    totals.history == history
        && totals.frozen == frozen
        && totals.active == active
        && totals.runs == runs
}
