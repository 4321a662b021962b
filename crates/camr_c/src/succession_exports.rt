// An engine that follows another one in the slot of its host, and the list of an engine's CCBs. It relies on `host_opening` and
// `host_embedding`.

ghost use Rattle.std.specs.Prelude.{◌≡◌, ◌<◌, ◌≤◌, IsSome, Result, length};
ghost use Rattle.manifest.specs.declared.fault.ManifestFault.{ManifestFault};
ghost use Rattle.host_embedding.specs.Ccbs.{ListsCcbs};
ghost use Rattle.host_embedding.specs.Succession.{IsRenewed};
ghost use Rattle.host_embedding.specs.declared.call_result.CallResult.{CallResult as TheResult};
ghost use Rattle.host_embedding.specs.declared.call_result.TheConstants.{RESULTS};
ghost use Rattle.host_opening.specs.Opened.{Succeeds};
ghost use Rattle.camr_c.specs.Exports.{Did, IsNumberOf, Stays, EngineTurns, numbering_of};

use crate::engine_slot::EngineSlot;
use host_embedding::{CallResult, Numbering};
use host_opening::{put_fault, succeed};
use std::alloc::Global;

// How numbers go on.
fn numbering_of(fresh: bool) -> Numbering
    ensures { result ≡ numbering_of fresh }
{
    if fresh {
        Numbering::Fresh
    } else {
        Numbering::Same
    }
}

/// Ends an engine, and begins another one of a manifest's text that takes over what it leaves. If the text is faulty, the front of its
/// fault's text is put.
#[unsafe(no_mangle)]
pub extern "C" fn camr_raw_succeed(
    alloc: Global,
    engine: &mut EngineSlot,
    manifest: &[u8],
    fresh: bool,
    fault: &mut [u8],
    written: &mut usize,
) -> u32
    requires { IsSome engine.old.held }
    ensures did { (answer : Result TheResult ManifestFault) × IsNumberOf answer result
        × EngineTurns engine.old.held engine.new.held (λ before after. Succeeds (numbering_of fresh) manifest.now answer before after) }
    ensures few { result < RESULTS }
    ensures text { written.new ≤ length fault.new }
{
    *written = 0;
    match succeed(alloc, engine.held(), manifest, numbering_of(fresh)) {
        Ok(result) => result.number(),
        Err(its) => {
            *written = put_fault(alloc, &its, fault);
            CallResult::Faulty.number()
        }
    }
}

/// The same with the manifest in force.
#[unsafe(no_mangle)]
pub extern "C" fn camr_raw_renew(alloc: Global, engine: &mut EngineSlot, fresh: bool) -> u32
    requires { IsSome engine.old.held }
    ensures did { Did result (λ its. EngineTurns engine.old.held engine.new.held (λ before after. IsRenewed its (numbering_of fresh) before after)) }
    ensures few { result < RESULTS }
{
    engine
        .held()
        .engine
        .renew(alloc, numbering_of(fresh))
        .number()
}

/// Lists the live CCBs from this number on, as many as find room: how many that are.
#[unsafe(no_mangle)]
pub extern "C" fn camr_raw_ccbs(
    engine: &mut EngineSlot,
    from: u32,
    numbers: &mut [u32],
    states: &mut [u32],
    count: &mut usize,
)
    requires { IsSome engine.old.held }
    ensures did { Stays engine.old.held engine.new.held (λ its. ListsCcbs its.engine.world.transport.live from numbers.old states.old numbers.new states.new count.new) }
{
    *count = engine.held().engine.list_ccbs(from, numbers, states);
}
