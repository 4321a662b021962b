// The calls of an engine that name no run. It relies on `host_embedding` for each.

ghost use Rattle.std.specs.Prelude.{◌≡◌, ◌≢◌, ◌<◌, ◌≤◌, IsSome, None, Result, false, length};
ghost use Rattle.std.specs.Global.{Box};
ghost use Rattle.ccb.specs.declared.place.Place.TheVariants.{Device, Controller};
ghost use Rattle.world_calls.specs.declared.call.Call.TheVariants.{Withdraw, Clock};
ghost use Rattle.world_calls.specs.declared.call_answer.CallAnswer.TheVariants as answers;
ghost use Rattle.world.specs.TotalsOf.{totals_in};
ghost use Rattle.host_opening.specs.declared.opening.OpenFault.{OpenFault as TheFault};
ghost use Rattle.host_opening.specs.Opened.{Opens};
ghost use Rattle.camr_c.specs.Exports.{Called, Frozen, IsOpened, Released, Started, Stays, Submitted, TellsDue, sums_of};
ghost use Rattle.host_embedding.specs.declared.call_result.TheConstants.{RESULTS};
ghost use Rattle.host_embedding.specs.declared.hosted_engine.HostedEngine.{HostedEngine as TheEngine};

use crate::engine_slot::EngineSlot;
use crate::raw_box::RawBox;
use ccb::{Place, QueueId};
use host_embedding::CallResult;
use host_opening::{OpenFault, open, put_fault};
use std::alloc::Global;

/// The sums of an engine, as C has them.
#[repr(C)]
pub struct Sums {
    pub history: u64,
    pub frozen: u32,
    pub active: u32,
    pub runs: u32,
}

/// Opens an engine of a manifest's text. Where it is faulty, the front of its fault's text is put.
#[unsafe(no_mangle)]
pub extern "C" fn camr_raw_open(
    alloc: Global,
    manifest: &[u8],
    engine: &mut EngineSlot,
    fault: &mut [u8],
    written: &mut usize,
) -> u32
    ensures opened { (answer : Result (Box TheEngine) TheFault) × Opens manifest.now answer × IsOpened answer result engine.old.held engine.new.held }
    ensures few { result < RESULTS }
    ensures text { written.new ≤ length fault.new }
{
    *written = 0;
    match open(alloc, manifest) {
        Ok(handle) => {
            engine.fill(RawBox::of(handle));
            CallResult::Done.number()
        }
        Err(OpenFault::OutOfMemory) => CallResult::OutOfMemory.number(),
        Err(OpenFault::NotUtf8) => CallResult::NotUtf8.number(),
        Err(OpenFault::Manifest(its)) => {
            *written = put_fault(alloc, &its, fault);
            CallResult::Faulty.number()
        }
    }
}

/// Ends an engine: all that is still frozen is forfeited.
#[unsafe(no_mangle)]
pub extern "C" fn camr_raw_close(alloc: Global, engine: &mut EngineSlot)
    requires { IsSome engine.old.held }
    ensures { engine.new.held ≡ None }
{
    drop(engine.empty(alloc).into_box());
}

#[unsafe(no_mangle)]
pub extern "C" fn camr_raw_submit(
    engine: &mut EngineSlot,
    queue: u32,
    priority: u32,
    retries: u32,
    class_: u32,
    ccb: &mut u32,
) -> u32
    requires { IsSome engine.old.held }
    ensures did { Submitted result engine.old engine.new queue priority retries class_ ccb.new }
    ensures few { result < RESULTS }
    ensures kept { result ≢ 0 → ccb.new ≡ ccb.old }
{
    engine
        .held()
        .submit(queue, priority, retries, class_, ccb)
        .number()
}

#[unsafe(no_mangle)]
pub extern "C" fn camr_raw_dispatch(
    engine: &mut EngineSlot,
    queue: u32,
    ccb: &mut u32,
    advice: &mut u32,
) -> u32
    requires { IsSome engine.old.held }
    ensures did { Started result engine.old engine.new queue ccb.new advice.new }
    ensures few { result < RESULTS }
    ensures kept { result ≢ 0 → (ccb.new ≡ ccb.old) × (advice.new ≡ advice.old) }
{
    engine.held().dispatch(queue, ccb, advice).number()
}

/// Withdraws a CCB that waits.
#[unsafe(no_mangle)]
pub extern "C" fn camr_raw_withdraw(engine: &mut EngineSlot, ccb: u32) -> u32
    requires { IsSome engine.old.held }
    ensures did { Called result engine.old engine.new answers.Ok (Withdraw (record { 0 = ccb })) }
    ensures few { result < RESULTS }
{
    engine.held().withdraw(ccb).number()
}

#[unsafe(no_mangle)]
pub extern "C" fn camr_raw_clock(engine: &mut EngineSlot, reading: u64, removed: &mut u32) -> u32
    requires { IsSome engine.old.held }
    ensures did { Called result engine.old engine.new (answers.Removed removed.new) (Clock reading) }
    ensures few { result < RESULTS }
    ensures kept { result ≢ 0 → removed.new ≡ removed.old }
{
    engine.held().clock(reading, removed).number()
}

/// Whether a timer holds a freeze, and when the first is due.
#[unsafe(no_mangle)]
pub extern "C" fn camr_raw_next_due(engine: &mut EngineSlot, reading: &mut u64) -> bool
    requires { IsSome engine.old.held }
    ensures did { Stays engine.old.held engine.new.held (λ its. TellsDue its.engine.world.transport.freezes result reading.new) }
    ensures kept { result ≡ false → reading.new ≡ reading.old }
{
    match engine.held().engine.next_due() {
        Some(due) => {
            *reading = due;
            true
        }
        None => false,
    }
}

#[unsafe(no_mangle)]
pub extern "C" fn camr_raw_guest_freeze(
    engine: &mut EngineSlot,
    queue: u32,
    guest: u32,
    freeze: &mut u32,
) -> u32
    requires { IsSome engine.old.held }
    ensures did { Frozen result engine.old engine.new freeze.new (Device (record { 0 = queue })) guest }
    ensures few { result < RESULTS }
    ensures kept { result ≢ 0 → freeze.new ≡ freeze.old }
{
    let place = Place::Device(QueueId(queue));
    engine.held().guest_freeze(place, guest, freeze).number()
}

#[unsafe(no_mangle)]
pub extern "C" fn camr_raw_guest_freeze_controller(
    engine: &mut EngineSlot,
    controller: u32,
    guest: u32,
    freeze: &mut u32,
) -> u32
    requires { IsSome engine.old.held }
    ensures did { Frozen result engine.old engine.new freeze.new (Controller controller) guest }
    ensures few { result < RESULTS }
    ensures kept { result ≢ 0 → freeze.new ≡ freeze.old }
{
    let place = Place::Controller(controller);
    engine.held().guest_freeze(place, guest, freeze).number()
}

#[unsafe(no_mangle)]
pub extern "C" fn camr_raw_guest_release(
    engine: &mut EngineSlot,
    freeze: u32,
    left: &mut u32,
) -> u32
    requires { IsSome engine.old.held }
    ensures did { Released result engine.old engine.new left.new freeze }
    ensures few { result < RESULTS }
    ensures kept { result ≢ 0 → left.new ≡ left.old }
{
    engine.held().guest_release(freeze, left).number()
}

#[unsafe(no_mangle)]
pub extern "C" fn camr_raw_totals(engine: &mut EngineSlot, sums: &mut Sums)
    requires { IsSome engine.old.held }
    ensures did { Stays engine.old.held engine.new.held (λ its. sums.new ≡ sums_of (totals_in its.engine.history its.engine.world)) }
{
    let totals = engine.held().engine.totals();
    sums.history = totals.history;
    sums.frozen = totals.frozen;
    sums.active = totals.active;
    sums.runs = totals.runs;
}
