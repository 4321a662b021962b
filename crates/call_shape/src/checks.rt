// The check of a program's shape: its faults in the order of their numbers. It relies on a module for each kind of fault.

ghost use Rattle.std.specs.Prelude.{◌≡◌, ℕ, IfOk, IfErr};
ghost use Rattle.bpf_insn.specs.Program.{IsProgram};
ghost use Rattle.call_shape.specs.Calls.{IsOnCycle};
ghost use Rattle.call_shape.specs.Shape.{AreContained, AreOrdered, IsLawful, FaultIs};
ghost use Rattle.call_shape.specs.Tables.{AreFunctions};
ghost use Rattle.call_shape.specs.Walk.{IsOrderOf};

use crate::cycle::first_on_cycle;
use crate::fault::ShapeFault;
use crate::frames::frames_of;
use crate::functions::functions_of;
use crate::insn_faults::insn_fault;
use crate::lawful_shape::{MAX_WRITTEN_OUT, Shape};
use crate::postorder::Postorder;
use crate::walk::Walk;
use crate::written_out::written_out_of;
use bpf_insn::{MAX_SLOTS, Program};
use bpf_stack_frame::MAX_FRAMES;

/// The program's shape, or the lowest fault that holds, with the lowest slot that has it. It takes no memory, and time
/// that grows with the slots. Only where calls lie on a cycle it takes more, to name the first of them.
pub fn shape(program: &Program) -> Result<Shape<'_>, ShapeFault>
    ensures value { IfOk result (λ shape. shape ≡ program.now) }
    ensures lawful { IfOk result (λ _. IsLawful program.now) }
    ensures fault { IfErr result (FaultIs program.now) }
{
    // The proof knows that it is a program once its length is read.
    let _slots = program.len();
    let functions = functions_of(program);
    if let Some(fault) = insn_fault(program, &functions) {
        return Err(fault);
    }
    match Walk::postorder_of(program, &functions) {
        Ok(order) => measured(program, &functions, order),
        Err(_) => Err(call_cycle(program, &functions)),
    }
}

// The first local call on a cycle, where there is one.
fn call_cycle(program: &Program, functions: &[u16; MAX_SLOTS]) -> ShapeFault
    requires program { IsProgram program.now }
    requires functions { AreFunctions program.now functions.now }
    requires contained { AreContained program.now }
    requires cycle { (place : ℕ) × IsOnCycle program.now place }
    ensures { FaultIs program.now result }
{
    match first_on_cycle(program, functions) {
        Some(slot) => ShapeFault::CallCycle(slot),
        None => unreachable!(),
    }
}

// The shape of a program whose calls are acyclic, unless its paths go too deep or it is too long.
fn measured<'a>(
    program: &'a Program,
    functions: &[u16; MAX_SLOTS],
    order: Postorder,
) -> Result<Shape<'a>, ShapeFault>
    requires program { IsProgram program.now }
    requires functions { AreFunctions program.now functions.now }
    requires contained { AreContained program.now }
    requires order { IsOrderOf program.now order }
    ensures value { IfOk result (λ shape. shape ≡ program.entry.now) }
    ensures lawful { IfOk result (λ _. IsLawful program.entry.now) }
    ensures fault { IfErr result (FaultIs program.entry.now) }
{
    let frames = frames_of(program, order.as_slice());
    if usize::from(frames) > MAX_FRAMES {
        return Err(ShapeFault::TooManyFrames);
    }
    let written_out = written_out_of(program, functions, order.as_slice());
    if written_out > MAX_WRITTEN_OUT {
        return Err(ShapeFault::TooLong);
    }
    Ok(Shape::new(program, order, frames as u8, written_out))
}
