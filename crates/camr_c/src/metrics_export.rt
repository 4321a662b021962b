// The text of what is counted. It relies on `host_embedding` for it.

ghost use Rattle.std.specs.Prelude.{◌≡◌, ◌<◌, ◌≤◌, ℕ, IsSome, List, length};
ghost use Rattle.host_embedding.specs.Counting.{PutsWhole};
ghost use Rattle.host_embedding.specs.declared.call_result.TheConstants.{RESULTS};
ghost use Rattle.camr_c.specs.Exports.{Did, Stays};

use crate::engine_slot::EngineSlot;
use std::alloc::Global;

/// Puts the text of what is counted, and of the engine as it stands: all of it, or if it finds no room nothing. How long it is, is reported
/// of both. What stands after it stays as it was.
#[unsafe(no_mangle)]
pub extern "C" fn camr_raw_metrics(
    alloc: Global,
    engine: &mut EngineSlot,
    place: &mut [u8],
    count: &mut usize,
) -> u32
    requires { IsSome engine.old.held }
    ensures did { Did result (λ its. Stays engine.old.held engine.new.held (λ it. (text : List ℕ) × PutsWhole its text place.old place.new count.new)) }
    ensures few { result < RESULTS }
    ensures text { result ≡ 0 → count.new ≤ length place.new }
{
    engine.held().put_metrics(alloc, place, count).number()
}
