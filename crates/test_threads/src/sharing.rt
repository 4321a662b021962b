// An engine that is shared: how many callers there may be, and that it ends with all of them alone.

use crate::asking::{are_sums, caller_of, close, closed, given, is_ccb, put_in};
use crate::engines::QUEUE;
use engine_core::Event;
use engine_lock::{Caller, LockFault, Object, Shared, Unclosed};
use std::alloc::{AllocError, Global};
use std::sync::Wait;

// How many callers there may be.
const MOST: usize = 64;

// So many callers more, as far as they are given out.
fn callers_of<B: Object, R: Wait>(
    rt: &R,
    alloc: Global,
    shared: &Shared<B>,
    count: usize,
) -> Vec<Caller<B>> {
    let mut callers = Vec::new(alloc);
    for _ in 0..count {
        if let Some(caller) = caller_of(rt, shared) {
            put_in(&mut callers, caller);
        }
    }
    callers
}

// Submits a CCB more.
fn submits<B: Object, R: Wait>(rt: &R, shared: &Shared<B>, caller: &mut Caller<B>) -> bool {
    let event = Event::Submit {
        queue: QUEUE,
        priority: 1,
        retries: 0,
        class: 0,
    };
    is_ccb(given(rt, shared, caller, event))
}

// Each caller submits a CCB: the callers, and whether each has done so.
fn submit_all<B: Object, R: Wait>(
    rt: &R,
    shared: &Shared<B>,
    mut callers: Vec<Caller<B>>,
) -> (Vec<Caller<B>>, bool) {
    let mut done = Vec::new(*callers.allocator());
    let mut submitted = true;
    while let Some(mut caller) = callers.pop() {
        submitted = submits(rt, shared, &mut caller) && submitted;
        put_in(&mut done, caller);
    }
    callers.destroy_empty();
    (done, submitted)
}

// Whether no caller is given out, since there are as many as there may be.
fn is_full<B: Object, R: Wait>(rt: &R, shared: &Shared<B>) -> bool {
    match shared.caller(rt) {
        Ok(caller) => {
            caller.forfeit();
            false
        }
        Err(fault) => fault == LockFault::TooManyCallers,
    }
}

/// 64 callers are given out and no more, each submits, and all are handed in.
pub fn gives_out_64_callers<B: Object, R: Wait>(
    rt: &R,
    alloc: Global,
    shared: Shared<B>,
) -> Option<bool> {
    let callers = callers_of(rt, alloc, &shared, MOST);
    let all = callers.len() == MOST && is_full(rt, &shared);
    let (callers, submitted) = submit_all(rt, &shared, callers);
    let totals = closed(rt, shared, callers)?;
    Some(all && submitted && are_sums(&totals, 66, 0, 1, 0))
}

// Whether what came back is one caller, for want of the other, and the engine is closed with both: each submits before.
fn closes_with<B: Object, R: Wait>(
    rt: &R,
    unclosed: Unclosed<B>,
    missing: Caller<B>,
) -> Option<bool> {
    let Unclosed {
        fault,
        shared,
        mut callers,
    } = unclosed;
    let refused = fault == LockFault::CallerMissing && callers.len() == 1;
    put_in(&mut callers, missing);
    let (callers, submitted) = submit_all(rt, &shared, callers);
    let totals = closed(rt, shared, callers)?;
    Some(refused && submitted && totals.history == 4)
}

// The engine is not closed without the caller that is missing, and is with it.
fn closes_at_last<B: Object, R: Wait>(
    rt: &R,
    shared: Shared<B>,
    callers: Vec<Caller<B>>,
    missing: Caller<B>,
) -> Option<bool> {
    match close(rt, shared, callers) {
        Ok(_) => {
            missing.forfeit();
            None
        }
        Err(unclosed) => closes_with(rt, unclosed, missing),
    }
}

/// One of two callers is missing at first: L2. Each submits twice, before and after.
pub fn ends_with_all_callers_alone<B: Object, R: Wait>(
    rt: &R,
    alloc: Global,
    shared: Shared<B>,
) -> Option<bool> {
    let mut missing = caller_of(rt, &shared)?;
    let first = submits(rt, &shared, &mut missing);
    let callers = callers_of(rt, alloc, &shared, 1);
    let (callers, second) = submit_all(rt, &shared, callers);
    let closed = closes_at_last(rt, shared, callers, missing)?;
    Some(first && second && closed)
}

// What is said of that fault.
fn says(alloc: Global, fault: LockFault, text: &str) -> Result<bool, AllocError> {
    Ok(format!(in alloc; "{fault}")?.as_str() == text)
}

/// Why there is no caller more, or an engine is not closed.
pub fn says_why(alloc: Global) -> Option<bool> {
    let full = says(
        alloc,
        LockFault::TooManyCallers,
        "L1: 64 callers were given out",
    );
    let missing = says(
        alloc,
        LockFault::CallerMissing,
        "L2: a caller of the engine is missing",
    );
    Some(full.ok()? && missing.ok()?)
}
