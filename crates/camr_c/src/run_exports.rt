// The calls that start runs, take them further, park and resume them. It relies on `host_embedding` for each.

ghost use Rattle.std.specs.Prelude.{◌≡◌, ◌≢◌, ◌<◌, false, IsSome, None, Option, take};
ghost use Rattle.ccb.specs.Completion.{Outcome};
ghost use Rattle.host_embedding.specs.Calls.{IsAdvanced, IsDriven, IsParked};
ghost use Rattle.host_embedding.specs.Held.{is_same_run, out_of, IsStretched};
ghost use Rattle.camr_c.specs.Exports.{Did, EngineCounts, Turns, Stays, CalledWith, IsReported, Completed, Reports, Resumed};
ghost use Rattle.host_embedding.specs.declared.call_result.TheConstants.{RESULTS};

use crate::engine_slot::EngineSlot;
use crate::raw_box::RawBox;
use crate::run_slot::RunSlot;
use ccb::{CamStatus, CcbId, Completion};
use host_embedding::{CallResult, Fate};
use std::alloc::Global;

// How many sense bytes a completion has at most.
const MOST_SENSE: usize = 64;

// The completion that a device reports, of its numbers. Sense bytes after the first 64 are left out.
fn reported(ccb: u32, status: u8, scsi: u8, sense: &[u8]) -> Option<Completion>
    ensures { IsReported ccb status scsi sense.now result }
{
    let status = CamStatus::from_code(status)?;
    Completion::new(CcbId(ccb), status, scsi, front_of(sense))
}

#[tactic(auto, using(std::proofs::lemmas::List::take_min))]
fn front_of(sense: &[u8]) -> &[u8]
    ensures { result.now ≡ take 64 sense.now }
{
    &sense[..MOST_SENSE.min(sense.len())]
}

/// Takes a completion. Where a run starts it goes into the run's slot, and `started` tells so.
#[tactic(auto, using(crate::proofs::Refusing::counts_nothing))]
#[unsafe(no_mangle)]
pub extern "C" fn camr_raw_complete(
    alloc: Global,
    engine: &mut EngineSlot,
    ccb: u32,
    status: u8,
    scsi: u8,
    sense: &[u8],
    run: &mut RunSlot,
    started: &mut bool,
) -> u32
    requires { IsSome engine.old.held }
    ensures did { (report : Option Outcome) × IsReported ccb status scsi sense.now report
        × EngineCounts engine.old.held engine.new.held (λ before after. Completed report before after result started.new run.old.held run.new.held) }
    ensures few { result < RESULTS }
{
    *started = false;
    let Some(completion) = reported(ccb, status, scsi, sense) else {
        return CallResult::NoCompletion.number();
    };
    match engine.held().complete(alloc, completion) {
        Ok(Some(handle)) => {
            run.fill(RawBox::of(handle));
            *started = true;
            CallResult::Done.number()
        }
        Ok(None) => CallResult::Done.number(),
        Err(result) => result.number(),
    }
}

/// Takes a run to its next stop. It asks no engine.
#[unsafe(no_mangle)]
pub extern "C" fn camr_raw_stretch(run: &mut RunSlot) -> u32
    requires { IsSome run.old.held }
    ensures did { Did result (λ its. Turns run.old.held run.new.held (λ was is.
        IsStretched its was.held is.held × is_same_run was is)) }
    ensures few { result < RESULTS }
{
    run.held().stretch().number()
}

/// Takes over what a run did up to its next stop, and reports what it has done with its CCB.
#[tactic(auto, using(crate::proofs::Reporting::advanced))]
#[unsafe(no_mangle)]
pub extern "C" fn camr_raw_advance(
    engine: &mut EngineSlot,
    run: &mut RunSlot,
    r0: &mut u64,
    ended: &mut bool,
    fate: &mut u32,
    code: &mut u8,
) -> u32
    requires engine { IsSome engine.old.held }
    requires run { IsSome run.old.held }
    ensures did { CalledWith result engine.old engine.new run.old run.new (λ its before after was is.
        IsAdvanced its was is before after r0.new ended.new × Reports its (out_of was) after.history fate.new code.new) }
    ensures few { result < RESULTS }
    ensures kept { result ≢ 0 → (r0.new ≡ r0.old) × (ended.new ≡ ended.old) }
{
    let mut its = Fate::Kept;
    let result = engine.held().advance(run.held(), r0, ended, &mut its);
    *fate = its.number();
    *code = its.code();
    result.number()
}

/// Takes a run to its end, and reports what it has done with its CCB.
#[tactic(auto, using(crate::proofs::Reporting::driven))]
#[unsafe(no_mangle)]
pub extern "C" fn camr_raw_drive(
    engine: &mut EngineSlot,
    run: &mut RunSlot,
    r0: &mut u64,
    ended: &mut bool,
    fate: &mut u32,
    code: &mut u8,
) -> u32
    requires engine { IsSome engine.old.held }
    requires run { IsSome run.old.held }
    ensures did { CalledWith result engine.old engine.new run.old run.new (λ its before after was is.
        IsDriven its (out_of was) is before after r0.new ended.new × Reports its (out_of was) after.history fate.new code.new) }
    ensures few { result < RESULTS }
    ensures unended { result ≢ 0 → ended.new ≡ false }
{
    let mut its = Fate::Kept;
    let result = engine.held().drive(run.held(), r0, ended, &mut its);
    *fate = its.number();
    *code = its.code();
    result.number()
}

#[unsafe(no_mangle)]
pub extern "C" fn camr_raw_park(engine: &mut EngineSlot, run: &mut RunSlot) -> u32
    requires engine { IsSome engine.old.held }
    requires run { IsSome run.old.held }
    ensures did { CalledWith result engine.old engine.new run.old run.new (λ its before after was is.
        IsParked its (out_of was) is before after) }
    ensures few { result < RESULTS }
{
    engine.held().park(run.held()).number()
}

/// Lets the run of that number go on, which goes into the run's slot, and `resumed` tells so.
#[unsafe(no_mangle)]
pub extern "C" fn camr_raw_resume(
    alloc: Global,
    engine: &mut EngineSlot,
    number: u32,
    run: &mut RunSlot,
    resumed: &mut bool,
) -> u32
    requires { IsSome engine.old.held }
    ensures did { EngineCounts engine.old.held engine.new.held (λ before after. Resumed number before after result resumed.new run.old.held run.new.held) }
    ensures few { result < RESULTS }
{
    *resumed = false;
    match engine.held().resume(alloc, number) {
        Ok(handle) => {
            run.fill(RawBox::of(handle));
            *resumed = true;
            CallResult::Done.number()
        }
        Err(result) => result.number(),
    }
}

/// The run's number, and that of the freeze that it was started with.
#[unsafe(no_mangle)]
pub extern "C" fn camr_raw_run_numbers(run: &mut RunSlot, number: &mut u32, freeze: &mut u32)
    requires { IsSome run.old.held }
    ensures did { Stays run.old.held run.new.held (λ its. (number.new ≡ its.number) × (freeze.new ≡ its.freeze)) }
{
    let held = run.held();
    *number = held.number;
    *freeze = held.freeze;
}

/// Ends a run's handle. A run that is out is forfeited.
#[unsafe(no_mangle)]
pub extern "C" fn camr_raw_run_free(alloc: Global, run: &mut RunSlot)
    requires { IsSome run.old.held }
    ensures { run.new.held ≡ None }
{
    drop(run.empty(alloc).into_box());
}
