// Local calls that lie on a cycle of calls. It relies on `functions`.

ghost use Rattle.std.specs.Prelude.{◌≡◌, ℕ, ◌<◌, ◌↔◌, true, false, length, IsTrue, IfSome, IfNone};
ghost use Rattle.bpf_insn.specs.Program.{IsProgram};
ghost use Rattle.call_shape.specs.Calls.{is_start, IsOnCycle};
ghost use Rattle.call_shape.specs.Reached.{MarksFrom, MarksCallee};
ghost use Rattle.call_shape.specs.Shape.{AreFound};
ghost use Rattle.call_shape.specs.Tables.{AreFunctions};
ghost use Rattle.call_shape.specs.Walk.{is_marked};

use crate::functions::{callee_at, function_end};
use bpf_insn::{MAX_SLOTS, Program};

/// The first local call that lies on a cycle of calls, and None exactly where there is none. Its time grows with the
/// square of the slots, so it is asked where there is one.
pub(crate) fn first_on_cycle(program: &Program, functions: &[u16; MAX_SLOTS]) -> Option<usize>
    requires program { IsProgram program.now }
    requires functions { AreFunctions program.now functions.now }
    requires found { AreFound program.now }
    ensures here { IfSome result (IsOnCycle program.now) }
    ensures before { IfSome result (λ place. (k : ℕ) → k < place → IsOnCycle program.now k → ⊥) }
    ensures nowhere { IfNone result ((k : ℕ) → IsOnCycle program.now k → ⊥) }
{
    for place in 0..program.len() {
        if is_on_cycle(program, functions, place) {
            return Some(place);
        }
    }
    None
}

// Whether the instruction at a place is a local call that lies on a cycle.
fn is_on_cycle(program: &Program, functions: &[u16; MAX_SLOTS], place: usize) -> bool
    requires program { IsProgram program.now }
    requires functions { AreFunctions program.now functions.now }
    requires found { AreFound program.now }
    requires inside { place < length program.now }
    ensures { IsTrue result ↔ IsOnCycle program.now place }
{
    let Some(callee) = callee_at(program, place) else {
        return false;
    };
    let mut reached = [false; MAX_SLOTS];
    reach(program, functions, callee, &mut reached);
    reached[usize::from(functions[place])]
}

// Marks a function and all that it comes to by calls.
#[cycle(reach)]
fn reach(
    program: &Program,
    functions: &[u16; MAX_SLOTS],
    function: usize,
    reached: &mut [bool; MAX_SLOTS],
)
    requires program { IsProgram program.now }
    requires functions { AreFunctions program.now functions.now }
    requires found { AreFound program.now }
    requires starts { is_start program.now function ≡ true }
    requires inside { function < length program.now }
    requires fresh { is_marked reached.old function ≡ false }
    ensures { MarksFrom program.now function reached.old reached.new }
{
    reached[function] = true;
    for place in function..function_end(program, functions, function) {
        reach_callee(program, functions, place, reached);
    }
}

// Marks what the instruction at a place calls and all that this comes to, unless it is marked.
#[cycle(reach)]
fn reach_callee(
    program: &Program,
    functions: &[u16; MAX_SLOTS],
    place: usize,
    reached: &mut [bool; MAX_SLOTS],
)
    requires program { IsProgram program.now }
    requires functions { AreFunctions program.now functions.now }
    requires found { AreFound program.now }
    ensures { MarksCallee program.now place reached.old reached.new }
{
    let Some(callee) = callee_at(program, place) else {
        return;
    };
    if !reached[callee] {
        reach(program, functions, callee, reached);
    }
}
