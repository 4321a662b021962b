// Faults that an instruction has by itself, and the first instruction with each. It relies on `functions`.

ghost use Rattle.std.specs.Prelude.{◌≡◌, ◌<◌, length, IfSome, IfNone};
ghost use Rattle.bpf_insn.specs.declared.program.TheConstants.{MAX_SLOTS};
ghost use Rattle.call_shape.specs.Calls.{begins};
ghost use Rattle.call_shape.specs.InsnFaults.{has_fault};
ghost use Rattle.call_shape.specs.Shape.{AreContained, FaultIs, IsFirst, IsNowhere, target_at, goes_on_behind, is_open_end};
ghost use Rattle.call_shape.specs.Tables.{AreFunctions};

use crate::fault::ShapeFault;
use crate::functions::{callee_at, function_at, is_function_end};
use bpf_insn::{Insn, MAX_SLOTS, Program, jump_target};

/// A fault of one instruction, as `ShapeFault` has it with its slot.
#[derive(Clone, Copy, Debug, PartialEq, Eq)]
pub(crate) enum InsnFault {
    OpenEnd,
    TargetOutside,
    TargetSecondSlot,
    TargetBackward,
    NoSuchFunction,
    LeavesFunction,
}

/// The first of the faults that instructions have by themselves, with its lowest slot, and None exactly where no
/// instruction has one.
pub(crate) fn insn_fault(program: &Program, functions: &[u16; MAX_SLOTS]) -> Option<ShapeFault>
    requires { AreFunctions program.now functions.now }
    ensures fault { IfSome result (FaultIs program.now) }
    ensures contained { IfNone result (AreContained program.now) }
{
    if let Some(slot) = first_with(InsnFault::OpenEnd, program, functions) {
        return Some(ShapeFault::OpenEnd(slot));
    }
    if let Some(slot) = first_with(InsnFault::TargetOutside, program, functions) {
        return Some(ShapeFault::TargetOutside(slot));
    }
    if let Some(slot) = first_with(InsnFault::TargetSecondSlot, program, functions) {
        return Some(ShapeFault::TargetSecondSlot(slot));
    }
    if let Some(slot) = first_with(InsnFault::TargetBackward, program, functions) {
        return Some(ShapeFault::TargetBackward(slot));
    }
    if let Some(slot) = first_with(InsnFault::NoSuchFunction, program, functions) {
        return Some(ShapeFault::NoSuchFunction(slot));
    }
    let leaving = first_with(InsnFault::LeavesFunction, program, functions)?;
    Some(ShapeFault::LeavesFunction(leaving))
}

// The first place with a fault.
fn first_with(fault: InsnFault, program: &Program, functions: &[u16; MAX_SLOTS]) -> Option<usize>
    requires { AreFunctions program.now functions.now }
    ensures first { IfSome result (IsFirst (has_fault fault program.now)) }
    ensures nowhere { IfNone result (IsNowhere (has_fault fault program.now)) }
{
    for place in 0..program.len() {
        if has_fault(fault, program, functions, place) {
            return Some(place);
        }
    }
    None
}

// Whether the instruction at a place has a fault.
fn has_fault(
    fault: InsnFault,
    program: &Program,
    functions: &[u16; MAX_SLOTS],
    place: usize,
) -> bool
    requires functions { AreFunctions program.now functions.now }
    requires place { place < length program.now }
    ensures { result ≡ has_fault fault program.now place }
{
    let len = program.len();
    let target = target_at(program, place);
    match fault {
        InsnFault::OpenEnd => is_open_end(program, functions, place),
        InsnFault::TargetOutside => target.is_some_and(|to| len <= to),
        InsnFault::TargetSecondSlot => target.is_some_and(|to| to < len && !begins(program, to)),
        InsnFault::TargetBackward => target.is_some_and(|to| to <= place),
        InsnFault::NoSuchFunction => callee_at(program, place).is_some_and(|to| !begins(
            program, to,
        )),
        InsnFault::LeavesFunction => match target {
            Some(to) => function_at(program, functions, to)
                != function_at(program, functions, place),
            None => false,
        },
    }
}

// Whether the instruction at a place goes on after the end of its function.
fn is_open_end(program: &Program, functions: &[u16; MAX_SLOTS], place: usize) -> bool
    requires { AreFunctions program.now functions.now }
    ensures { result ≡ is_open_end program.now place }
{
    match program.fetch(place) {
        Some(insn) => goes_on_behind(insn)
            && is_function_end(program, functions, place + insn.slots()),
        None => false,
    }
}

// Whether control may go on after an instruction.
fn goes_on_behind(insn: Insn) -> bool
    ensures { result ≡ goes_on_behind insn }
{
    !matches!(insn, Insn::Exit | Insn::Jump(_))
}

// Whether an instruction begins in a slot.
fn begins(program: &Program, slot: usize) -> bool
    ensures { result ≡ begins program.now slot }
{
    program.fetch(slot).is_some()
}

// Where the jump at a place leads, if one is there.
fn target_at(program: &Program, place: usize) -> Option<usize>
    ensures { result ≡ target_at program.now place }
{
    match program.fetch(place)? {
        Insn::JumpIf { offset, .. } => Some(jump_target(place, i32::from(offset))),
        Insn::Jump(distance) => Some(jump_target(place, distance.slots())),
        _ => None,
    }
}
