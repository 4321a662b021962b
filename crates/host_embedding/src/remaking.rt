// The calls that a trace has are made once more, by the numbers of runs and freezes, and the runs that go out are kept. It relies on
// `engine_handle` and `run_calls` for each call.

ghost use Rattle.std.specs.Prelude.{◌≡◌, ◌<◌, ◌≤◌, IfSome, IsTrue, length};
ghost use Rattle.world_calls.specs.declared.call.Call.TheVariants as calls;
ghost use Rattle.host_embedding.specs.Recovering.{IsOf, MayGrow, MayRecord};

use crate::engine_handle::EngineHandle;
use crate::fates::Fate;
use crate::run_handle::RunHandle;
use ccb::{CcbId, Completion, Place, QueueId};
use std::alloc::Global;
use world_calls::{Call, CompletionRecord};

/// Makes a call. Of a run that is not kept, of a freeze that no guest holds, and of a completion that no device reports nothing is asked.
pub(crate) fn make(
    engine: &mut EngineHandle,
    left: &mut Vec<Box<RunHandle>>,
    alloc: Global,
    call: &Call,
)
    ensures { MayRecord engine.old call.now engine.new }
{
    match call {
        Call::Submit {
            queue,
            priority,
            retries,
            class,
        } => submit(engine, *queue, *priority, *retries, *class),
        Call::Dispatch { queue } => dispatch(engine, *queue),
        Call::Withdraw { ccb } => withdraw(engine, *ccb),
        Call::Complete { completion } => complete(engine, left, alloc, completion),
        Call::GuestFreeze { place, guest } => guest_freeze(engine, *place, *guest),
        Call::GuestRelease { freeze } => guest_release(engine, *freeze),
        Call::Clock { reading } => clock(engine, *reading),
        Call::Park { run } => park(engine, left, *run),
        Call::Resume { run } => resume(engine, left, alloc, *run),
    }
}

/// Takes the run of that number, which is kept, to its next stop.
pub(crate) fn advance(engine: &mut EngineHandle, left: &mut Vec<Box<RunHandle>>, run: u32)
    ensures { MayGrow engine.old engine.new }
{
    let Some(mut handle) = take(left, run) else {
        return;
    };
    if !goes_on(engine, &mut handle) {
        return;
    }
    put(left, handle);
}

// Takes the run to its next stop, and returns whether it goes on.
#[tactic(auto, using(crate::proofs::Remade::advanced_may))]
fn goes_on(engine: &mut EngineHandle, handle: &mut RunHandle) -> bool
    ensures { MayGrow engine.old engine.new }
{
    let (mut r0, mut ended, mut fate) = (0, false, Fate::Kept);
    handle.stretch();
    engine.advance(handle, &mut r0, &mut ended, &mut fate);
    !ended
}

// A submission, if it says a class where CCBs have one, and there alone.
#[tactic(auto, using(crate::proofs::Remade::submitted_may))]
fn submit(
    engine: &mut EngineHandle,
    queue: QueueId,
    priority: u32,
    retries: u32,
    class: Option<u32>,
)
    ensures { MayRecord engine.old (calls.Submit queue priority retries class) engine.new }
{
    let word = word_of(class);
    if !is_same(engine.class_said(word), class) {
        return;
    }
    let mut ccb = 0;
    engine.submit(queue.0, priority, retries, word, &mut ccb);
}

// The class that is said, or 0.
fn word_of(class: Option<u32>) -> u32 {
    match class {
        Some(class) => class,
        None => 0,
    }
}

fn is_same(one: Option<u32>, other: Option<u32>) -> bool
    ensures { IsTrue result → one ≡ other }
{
    one == other
}

#[tactic(auto, using(crate::proofs::Remade::called_may))]
fn withdraw(engine: &mut EngineHandle, ccb: CcbId)
    ensures { MayRecord engine.old (calls.Withdraw ccb) engine.new }
{
    engine.withdraw(ccb.0);
}

#[tactic(auto, using(crate::proofs::Remade::called_may))]
fn dispatch(engine: &mut EngineHandle, queue: QueueId)
    ensures { MayRecord engine.old (calls.Dispatch queue) engine.new }
{
    let (mut ccb, mut advice) = (0, 0);
    engine.dispatch(queue.0, &mut ccb, &mut advice);
}

#[tactic(auto, using(crate::proofs::Remade::called_may))]
fn clock(engine: &mut EngineHandle, reading: u64)
    ensures { MayRecord engine.old (calls.Clock reading) engine.new }
{
    let mut removed = 0;
    engine.clock(reading, &mut removed);
}

#[tactic(auto, using(crate::proofs::Remade::frozen_may))]
fn guest_freeze(engine: &mut EngineHandle, place: Place, guest: u32)
    ensures { MayRecord engine.old (calls.GuestFreeze place guest) engine.new }
{
    let mut freeze = 0;
    engine.guest_freeze(place, guest, &mut freeze);
}

#[tactic(auto, using(crate::proofs::Remade::released_may))]
fn guest_release(engine: &mut EngineHandle, freeze: u32)
    ensures { MayRecord engine.old (calls.GuestRelease freeze) engine.new }
{
    let mut left = 0;
    engine.guest_release(freeze, &mut left);
}

// A completion, if a device can report it.
fn complete(
    engine: &mut EngineHandle,
    left: &mut Vec<Box<RunHandle>>,
    alloc: Global,
    completion: &CompletionRecord,
)
    ensures { MayRecord engine.old (calls.Complete completion.now) engine.new }
{
    match completion.completion() {
        Some(completion) => completed(engine, left, alloc, completion),
        None => {}
    }
}

#[tactic(auto, using(crate::proofs::Remade::completed_may))]
fn completed(
    engine: &mut EngineHandle,
    left: &mut Vec<Box<RunHandle>>,
    alloc: Global,
    completion: Completion,
)
    ensures { MayRecord engine.old (calls.Complete completion) engine.new }
{
    if let Ok(Some(handle)) = engine.complete(alloc, completion) {
        put(left, handle);
    }
}

#[tactic(auto, using(crate::proofs::Remade::resumed_may))]
fn resume(engine: &mut EngineHandle, left: &mut Vec<Box<RunHandle>>, alloc: Global, run: u32)
    ensures { MayRecord engine.old (calls.Resume run) engine.new }
{
    if let Ok(handle) = engine.resume(alloc, run) {
        put(left, handle);
    }
}

// Parks the run of that number, if it is kept.
fn park(engine: &mut EngineHandle, left: &mut Vec<Box<RunHandle>>, run: u32)
    ensures { MayRecord engine.old (calls.Park run) engine.new }
{
    if let Some(mut handle) = take(left, run) {
        parked(engine, &mut handle, run);
    }
}

#[tactic(auto, using(crate::proofs::Remade::parked_may))]
fn parked(engine: &mut EngineHandle, handle: &mut RunHandle, run: u32)
    requires { IsOf run handle.old.held }
    ensures { MayRecord engine.old (calls.Park run) engine.new }
{
    engine.park(handle);
}

// Takes out the run of that number, if it is kept.
fn take(left: &mut Vec<Box<RunHandle>>, run: u32) -> Option<Box<RunHandle>>
    ensures { IfSome result (λ handle. IsOf run handle.value.held) }
{
    let place = place_of(left, run)?;
    let handle = left.remove(place);
    if handle.is_of(run) {
        Some(handle)
    } else {
        None
    }
}

fn place_of(left: &[Box<RunHandle>], run: u32) -> Option<usize>
    ensures { IfSome result (λ place. place < length left.now) }
{
    left.iter().position(|handle| handle.number == run)
}

// Keeps a run, in the order of the numbers. Where memory for it is refused it is forfeited.
fn put(left: &mut Vec<Box<RunHandle>>, handle: Box<RunHandle>) {
    let place = place_after(left, handle.number);
    let _put = left.insert(place, handle);
}

fn place_after(left: &[Box<RunHandle>], run: u32) -> usize
    ensures { result ≤ length left.now }
{
    match left.iter().position(|handle| handle.number > run) {
        Some(place) => place,
        None => left.len(),
    }
}
