// An engine that stands where the text of a trace led, in the slot of its host, and the runs that are out then. It relies on `host_opening`
// and `host_embedding`.

ghost use Rattle.std.specs.Prelude.{◌≡◌, ◌<◌, ◌≤◌, IsSome, Result, length};
ghost use Rattle.std.specs.Global.{Box};
ghost use Rattle.host_embedding.specs.declared.call_result.TheConstants.{RESULTS};
ghost use Rattle.host_embedding.specs.declared.hosted_engine.HostedEngine.{HostedEngine as TheEngine};
ghost use Rattle.host_opening.specs.declared.recovering.RecoverFault.{RecoverFault as TheFault};
ghost use Rattle.host_opening.specs.Recovered.{Recovers};
ghost use Rattle.camr_c.specs.Exports.{IsRecovered, Taken, Turns, unrecovered_result};

use crate::engine_slot::EngineSlot;
use crate::raw_box::RawBox;
use crate::run_slot::RunSlot;
use host_embedding::CallResult;
use host_opening::{RecoverFault, put_recover_fault, recover};
use std::alloc::Global;

/// Opens an engine of a manifest's text that stands where the text of a trace led. If one of the two is faulty, the front of its fault's
/// text is put.
#[unsafe(no_mangle)]
pub extern "C" fn camr_raw_recover(
    alloc: Global,
    manifest: &[u8],
    text: &[u8],
    engine: &mut EngineSlot,
    fault: &mut [u8],
    written: &mut usize,
) -> u32
    ensures recovered { (answer : Result (Box TheEngine) TheFault) × Recovers manifest.now text.now answer × IsRecovered answer result engine.old.held engine.new.held }
    ensures few { result < RESULTS }
    ensures text { written.new ≤ length fault.new }
{
    *written = 0;
    match recover(alloc, manifest, text) {
        Ok(handle) => {
            engine.fill(RawBox::of(handle));
            CallResult::Done.number()
        }
        Err(its) => {
            *written = put_recover_fault(alloc, &its, fault);
            result_of(&its).number()
        }
    }
}

// The result that stands for a fault.
fn result_of(fault: &RecoverFault) -> CallResult
    ensures { result ≡ unrecovered_result fault.now }
{
    match fault {
        RecoverFault::OutOfMemory => CallResult::OutOfMemory,
        RecoverFault::NotUtf8 => CallResult::NotUtf8,
        RecoverFault::Manifest(_) => CallResult::Faulty,
        RecoverFault::Form(_) => CallResult::Faulty,
        RecoverFault::Replay(_) => CallResult::Faulty,
    }
}

/// Takes the next of the runs that were out when the engine was recovered, which goes into the run's slot, and returns whether there was
/// one.
#[unsafe(no_mangle)]
pub extern "C" fn camr_raw_take_run(engine: &mut EngineSlot, run: &mut RunSlot) -> bool
    requires { IsSome engine.old.held }
    ensures { Turns engine.old.held engine.new.held (λ before after. Taken before after result run.old.held run.new.held) }
{
    match engine.held().take_run() {
        Some(handle) => {
            run.fill(RawBox::of(handle));
            true
        }
        None => false,
    }
}
