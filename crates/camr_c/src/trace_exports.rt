// The trace of an engine as text. It relies on `host_embedding` for lines.

ghost use Rattle.std.specs.Prelude.{◌≢◌, ◌<◌, ◌≤◌, ℕ, IsSome, length};
ghost use Rattle.trace.specs.TraceText.{line_of};
ghost use Rattle.world.specs.TotalsOf.{totals_in};
ghost use Rattle.host_embedding.specs.Lines.{PutsCarried, PutsLines, PutsSums, TakesLines, front_of};
ghost use Rattle.host_embedding.specs.declared.call_result.CallResult.TheVariants.{NoRoom};
ghost use Rattle.host_embedding.specs.declared.text_lines.TheConstants.{LONGEST_TAKEN};
ghost use Rattle.camr_c.specs.Exports.{Did, Stays, EngineTurns};
ghost use Rattle.host_embedding.specs.declared.call_result.TheConstants.{RESULTS};

use crate::engine_slot::EngineSlot;
use host_embedding::PutLines;

/// Puts whole lines of the trace: those of the records from this number on, after the first line if that is 0 and the engine follows no
/// other one. What stands after them stays as it was.
#[unsafe(no_mangle)]
pub extern "C" fn camr_raw_trace(
    engine: &mut EngineSlot,
    from: u64,
    place: &mut [u8],
    written: &mut usize,
    next: &mut u64,
) -> u32
    requires { IsSome engine.old.held }
    ensures did { Did result (λ its. Stays engine.old.held engine.new.held (λ it.
        PutsLines line_of its (front_of it.engine.setup) it.engine.history it.engine.taken from place.old place.new written.new next.new)) }
    ensures few { result < RESULTS }
    ensures text { written.new ≤ length place.new }
{
    let mut put = PutLines {
        written: 0,
        next: from,
    };
    let result = engine.held().engine.put_lines(from, place, &mut put);
    *written = put.written;
    *next = put.next;
    result.number()
}

/// Takes whole lines of the trace: those of the records that were not taken yet, which are forgotten then, after the first line if
/// record 0 is among them and the engine follows no other one. What stands after them stays as it was.
#[unsafe(no_mangle)]
pub extern "C" fn camr_raw_take(
    engine: &mut EngineSlot,
    place: &mut [u8],
    written: &mut usize,
) -> u32
    requires { IsSome engine.old.held }
    ensures did { Did result (λ its. (LONGEST_TAKEN ≤ length place.old → its ≢ NoRoom) × EngineTurns engine.old.held engine.new.held (λ before after.
        (next : ℕ) × TakesLines its before after place.old place.new written.new next)) }
    ensures few { result < RESULTS }
    ensures text { written.new ≤ length place.new }
{
    let mut put = PutLines {
        written: 0,
        next: 0,
    };
    let result = engine.held().engine.take_lines(place, &mut put);
    *written = put.written;
    result.number()
}

/// Puts whole lines of what the engine took over: those from this one on, after the first line of their trace if that is 0. What stands
/// after them stays as it was.
#[unsafe(no_mangle)]
pub extern "C" fn camr_raw_carried(
    engine: &mut EngineSlot,
    from: u64,
    place: &mut [u8],
    written: &mut usize,
    next: &mut u64,
) -> u32
    requires { IsSome engine.old.held }
    ensures did { Did result (λ its. (LONGEST_TAKEN ≤ length place.old → its ≢ NoRoom) × Stays engine.old.held engine.new.held (λ it.
        PutsCarried its it.engine from place.old place.new written.new next.new)) }
    ensures few { result < RESULTS }
    ensures text { written.new ≤ length place.new }
{
    let mut put = PutLines {
        written: 0,
        next: from,
    };
    let result = engine.held().engine.put_carried(from, place, &mut put);
    *written = put.written;
    *next = put.next;
    result.number()
}

/// Puts the last line of the trace: the sums so far. What stands after it stays as it was.
#[unsafe(no_mangle)]
pub extern "C" fn camr_raw_trace_end(
    engine: &mut EngineSlot,
    place: &mut [u8],
    written: &mut usize,
) -> u32
    requires { IsSome engine.old.held }
    ensures did { Did result (λ its. Stays engine.old.held engine.new.held (λ it.
        PutsSums its (totals_in it.engine.history it.engine.world) place.old place.new written.new)) }
    ensures few { result < RESULTS }
    ensures text { written.new ≤ length place.new }
{
    let mut put = PutLines {
        written: 0,
        next: 0,
    };
    let result = engine.held().engine.put_end(place, &mut put);
    *written = put.written;
    result.number()
}
