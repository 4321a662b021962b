// Runs that a service kept: they are parked, and go on when they are resumed. One that the engine does not have out comes back.

use crate::asking::{are_sums, ends, given, run_of};
use crate::crew::Crew;
use crate::engines::engine_with;
use ccb::{CamStatus, CcbId, Completion};
use engine_core::{CompleteAnswer, Engine, Event, Run};
use engine_lock::{Object, Shared};
use std::alloc::Global;
use std::sync::Wait;

// The CCB whose time is over.
const CCB: CcbId = CcbId(1);

// Its time is over.
fn timeout(ccb: CcbId) -> Option<Completion> {
    Completion::new(ccb, CamStatus::CommandTimeout, 0, &[])
}

// The run that the shared engine starts for the CCB.
fn started<B: Object, R: Wait>(
    rt: &R,
    shared: &Shared<B>,
    crew: &mut Crew<B>,
    ccb: CcbId,
) -> Option<Run> {
    let completion = timeout(ccb)?;
    let event = Event::Complete {
        completion: &completion,
    };
    run_of(given(rt, shared, &mut crew.caller, event))
}

// The run of that number goes on to its end, once it is resumed.
fn goes_on<B: Object, R: Wait>(
    rt: &R,
    shared: &Shared<B>,
    crew: &mut Crew<B>,
    number: u32,
) -> bool {
    let event = Event::Resume { run: number };
    match run_of(given(rt, shared, &mut crew.caller, event)) {
        Some(run) => ends(rt, shared, &mut crew.caller, run),
        None => false,
    }
}

// The run of the CCB is parked, resumed and driven to its end.
fn parks<B: Object, R: Wait>(rt: &R, shared: &Shared<B>, crew: &mut Crew<B>) -> bool {
    let Some(run) = started(rt, shared, crew, CCB) else {
        return false;
    };
    let number = run.number();
    crew.settle(rt, shared, run) == Some(0) && goes_on(rt, shared, crew, number)
}

/// A run is parked that goes on later: it is started, parked, resumed, goes on twice and ends.
pub fn parks_a_run<B: Object, R: Wait>(rt: &R, alloc: Global, shared: Shared<B>) -> Option<bool> {
    let mut crew = Crew::open(rt, alloc, &shared, 1)?;
    let parked = parks(rt, &shared, &mut crew);
    let totals = crew.close(rt, shared)?;
    Some(parked && are_sums(&totals, 8, 0, 0, 0))
}

// The run that this engine starts for the CCB.
fn run_by(engine: &mut Engine, ccb: CcbId) -> Option<Run> {
    match engine.complete(timeout(ccb)?) {
        Ok(CompleteAnswer::Started(run, _)) => Some(run),
        Ok(CompleteAnswer::Done) => None,
        Err(_) => None,
    }
}

// A run of an engine that nobody shares.
fn run_of_another(alloc: Global) -> Option<Run> {
    let mut engine = engine_with(alloc, 1, 0);
    match &mut engine {
        Some(engine) => run_by(engine, CCB),
        None => None,
    }
}

// A run of another engine comes back.
fn comes_back<B: Object, R: Wait>(
    rt: &R,
    alloc: Global,
    shared: &Shared<B>,
    crew: &mut Crew<B>,
) -> bool {
    match run_of_another(alloc) {
        Some(run) => crew.settle(rt, shared, run) == Some(1),
        None => false,
    }
}

/// A run of another engine comes back, and this engine is as it was.
pub fn gives_back_a_run<B: Object, R: Wait>(
    rt: &R,
    alloc: Global,
    shared: Shared<B>,
) -> Option<bool> {
    let mut crew = Crew::open(rt, alloc, &shared, 1)?;
    let back = comes_back(rt, alloc, &shared, &mut crew);
    let totals = crew.close(rt, shared)?;
    Some(back && are_sums(&totals, 2, 0, 1, 0))
}
