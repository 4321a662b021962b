// How many instructions a program has with its local calls written out. It relies on the postorder of its places.

ghost use Rattle.std.specs.Prelude.{◌≡◌, ℕ, ◌+◌, ◌<◌, ◌≤◌, length, slice_index, Some};
ghost use Rattle.bpf_insn.specs.Program.{IsProgram, insn_at};
ghost use Rattle.bpf_insn.specs.declared.program.TheConstants.{MAX_SLOTS};
ghost use Rattle.call_shape.specs.Counts.{count_on, IsCapped};
ghost use Rattle.call_shape.specs.Postorder.{IsWholePostorder};
ghost use Rattle.call_shape.specs.Shape.{AreContained, AreFound};
ghost use Rattle.call_shape.specs.Tables.{AreFunctions};
ghost use Rattle.call_shape.specs.declared.lawful_shape.TheConstants.{MAX_WRITTEN_OUT};

use crate::functions::{callee_at, is_function_end};
use crate::lawful_shape::MAX_WRITTEN_OUT;
use bpf_insn::{Insn, MAX_SLOTS, Program};

/// How many instructions there are with the local calls of slot 0's function written out, and of more than
/// `MAX_WRITTEN_OUT` one more than that.
pub(crate) fn written_out_of(program: &Program, functions: &[u16; MAX_SLOTS], places: &[u16]) -> u32
    requires program { IsProgram program.now }
    requires functions { AreFunctions program.now functions.now }
    requires contained { AreContained program.now }
    requires order { IsWholePostorder program.now places.now }
    ensures { IsCapped program.now 0 result }
{
    let mut counts = [0u32; MAX_SLOTS];
    for place in places {
        let place = usize::from(*place);
        let Some(insn) = program.fetch(place) else {
            unreachable!();
        };
        counts[place] = count_on(program, functions, &counts, place, insn);
    }
    counts[0]
}

// The instructions from a place to the end of its function.
fn count_on(
    program: &Program,
    functions: &[u16; MAX_SLOTS],
    counts: &[u32; MAX_SLOTS],
    place: usize,
    insn: Insn,
) -> u32
    requires program { IsProgram program.now }
    requires functions { AreFunctions program.now functions.now }
    requires found { AreFound program.now }
    requires here { insn_at program.now place ≡ Some insn }
    requires small { (k : ℕ) → slice_index counts.now k ≤ MAX_WRITTEN_OUT + 1 }
    ensures { result ≡ count_on program.now counts.now place insn }
{
    let behind = place + insn.slots();
    let rest = if is_function_end(program, functions, behind) {
        0
    } else {
        counts[behind]
    };
    let called = match callee_at(program, place) {
        Some(callee) => counts[callee],
        None => 0,
    };
    (rest + called + 1).min(MAX_WRITTEN_OUT + 1)
}
