// A path as long as a program's budget. It relies on `budget_path` for the lengths of paths.

ghost use Rattle.std.specs.Prelude.{◌≡◌, ◌<◌, ◌≤◌, ℕ, length, IfOk};
ghost use Rattle.call_shape.specs.StaticPath.{StaticPath, outermost};
ghost use Rattle.call_shape.specs.Tables.{HasEntries};
ghost use Rattle.call_shape.specs.declared.onward.Onward.TheVariants.{Leaves};
ghost use Rattle.explain_path.specs.Passes.{IsWhole, standing};
ghost use Rattle.explain_path.specs.Remaining.{left, IsUnderWay, StepsOn, IsLonger, GoesTo};

use bpf_insn::Program;
use budget_path::lengths;
use call_shape::{Onward, Shape};
use std::alloc::{AllocError, Global};

/// The slots of a longest path through a program of lawful shape, from slot 0 to the exit.
pub fn longest_path(alloc: Global, shape: &Shape<'_>) -> Result<Vec<usize>, AllocError>
    ensures path { IfOk result (λ slots. IsWhole shape.now slots.items) }
    // Some path to the exit is so long, and none is longer.
    ensures exit { IfOk result (λ slots. StaticPath shape.now (outermost 0) (length slots.items)) }
    ensures longest { IfOk result (λ slots. (n : ℕ) → StaticPath shape.now (outermost 0) n → n ≤ length slots.items) }
{
    let program = shape.program();
    let lengths = lengths(alloc, shape)?;
    let mut slots = Vec::new(alloc);
    let mut returns = Vec::new(alloc);
    let mut at = 0usize;
    slots.push(at)?;
    for _slot in 1..lengths[0] {
        at = next_of(program, &lengths, at, &mut returns)?;
        slots.push(at)?;
    }
    Ok(slots)
}

// Where a longest path goes on from a slot, where these calls are open, the innermost first; then those are.
fn next_of(
    program: &Program,
    lengths: &[u32],
    at: usize,
    returns: &mut Vec<usize>,
) -> Result<usize, AllocError>
    requires under_way { IsUnderWay program.now lengths.now (standing at returns.old.items) }
    requires further { 1 < left lengths.now (standing at returns.old.items) }
    ensures { IfOk result (λ to. StepsOn program.now lengths.now (standing at returns.old.items) (standing to returns.new.items)) }
{
    let Some(insn) = program.fetch(at) else {
        unreachable!();
    };
    next_by(lengths, Onward::of(at, insn), returns)
}

// The same by where the instruction lets control go on.
fn next_by(lengths: &[u32], way: Onward, returns: &mut Vec<usize>) -> Result<usize, AllocError>
    requires entries { HasEntries (length lengths.now) way }
    requires open { way ≡ Leaves → 0 < length returns.old.items }
    ensures { IfOk result (λ to. GoesTo lengths.now returns.old.items way (standing to returns.new.items)) }
{
    match way {
        Onward::Leaves => Ok(returns.remove(0)),
        Onward::Continues(next) => Ok(next),
        Onward::Branches(next, other) => Ok(longer(lengths, next, other)),
        Onward::Enters(callee, next) => {
            returns.insert(0, next)?;
            Ok(callee)
        }
    }
}

// From which of both slots the longer path goes on.
fn longer(lengths: &[u32], one: usize, other: usize) -> usize
    requires one { one < length lengths.now }
    requires other { other < length lengths.now }
    ensures { IsLonger lengths.now one other result }
{
    if lengths[one] >= lengths[other] {
        one
    } else {
        other
    }
}
