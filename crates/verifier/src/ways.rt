// Where instructions lead: to the next slot, by a jump within their function, into a function that they call, or out of
// one. It relies on the shape of the program for that jumps lead forward.

ghost use Rattle.std.specs.Prelude.{◌≡◌, ◌<◌, ◌≤◌, ◌++◌, ◌∷◌, [], List, ℕ, true, length, IfNone, IfSome, Some};
ghost use Rattle.bpf_insn.specs.declared.insn.Insn.TheVariants.{Exit};
ghost use Rattle.bpf_insn.specs.declared.program.TheConstants.{MAX_SLOTS};
ghost use Rattle.bpf_insn.specs.Program.{insn_at};
ghost use Rattle.call_shape.specs.Calls.{begins, callee_in};
ghost use Rattle.call_shape.specs.Shape.{behind, goes_on_behind, target_in};
ghost use Rattle.check_description.specs.declared.saved.SavedRegisters.{SavedRegisters};
ghost use Rattle.verifier.specs.Function.{IsEnd, IsLawfulProgram, LeadsBelow};

use bpf_insn::{Callee, Insn, Program, jump_target};
use check_description::SavedRegisters;

/// Where the instruction at a place jumps to, if it is a jump.
pub fn target_of(place: usize, insn: Insn) -> Option<usize>
    requires { place < MAX_SLOTS }
    ensures { result ≡ target_in place insn }
{
    match insn {
        Insn::JumpIf { offset, .. } => Some(jump_target(place, i32::from(offset))),
        Insn::Jump(distance) => Some(jump_target(place, distance.slots())),
        _ => None,
    }
}

/// Where the function starts that the instruction at a place calls, if it is a local call.
pub fn callee_of(place: usize, insn: Insn) -> Option<usize>
    requires { place < MAX_SLOTS }
    ensures { result ≡ callee_in place insn }
{
    match insn {
        Insn::Call(Callee::Local(distance)) => Some(jump_target(place, distance)),
        _ => None,
    }
}

/// What is known of the registers that an exit brings back: None where none does, or where it is the run's end.
pub fn returning(insn: Insn, callers: &[SavedRegisters]) -> Option<SavedRegisters>
    ensures some { IfSome result (λ saved. (insn ≡ Exit) × (outer : List SavedRegisters) × (callers.now ≡ outer ++ saved ∷ [])) }
    ensures none { IfNone result (insn ≡ Exit → callers.now ≡ []) }
{
    match insn {
        Insn::Exit => callers.last().copied(),
        _ => None,
    }
}

/// An end of the function that starts at a slot: before it all places stand to which control comes from there, but for what
/// is called.
pub fn end_of(program: &Program, start: usize) -> usize
    requires lawful { IsLawfulProgram program.now }
    requires begins { begins program.now start ≡ true }
    ensures { IsEnd program.now start result }
{
    let mut end = start + 1;
    for place in start..program.len() {
        if place == end {
            return end;
        }
        if let Some(insn) = program.fetch(place) {
            end = end.max(furthest(program, place, insn) + 1);
        }
    }
    end
}

// The furthest place of its function to which the instruction at a place leads, at least that place.
fn furthest(program: &Program, place: usize, insn: Insn) -> usize
    requires lawful { IsLawfulProgram program.now }
    requires here { insn_at program.now place ≡ Some insn }
    ensures inside { result < length program.now }
    ensures leads { (end : ℕ) → result < end → LeadsBelow place insn end }
{
    match target_of(place, insn) {
        Some(target) => target,
        None => {
            if matches!(insn, Insn::Exit) {
                place
            } else {
                place + insn.slots()
            }
        }
    }
}
