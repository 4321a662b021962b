// The longest path from each place, found place after place in the shape's postorder. It relies on `call_shape`.

ghost use Rattle.std.specs.Prelude.{◌≡◌, ℕ, ◌+◌, ◌<◌, ◌≤◌, length, slice_index, IfOk};
ghost use Rattle.call_shape.specs.StaticPath.{outermost, StaticPath};
ghost use Rattle.call_shape.specs.Tables.{HasEntries};
ghost use Rattle.call_shape.specs.declared.lawful_shape.TheConstants.{MAX_WRITTEN_OUT};
ghost use Rattle.budget_path.specs.Length.{length_by};
ghost use Rattle.budget_path.specs.Longest.{AreLongest};

use call_shape::{Onward, Shape};
use std::alloc::{AllocError, Global};

/// The greatest number of instructions on a static path, local calls written out and the exit included: 1 to
/// `MAX_WRITTEN_OUT`. It takes memory for one number a slot, and time that grows with the slots.
pub fn budget(alloc: Global, shape: &Shape<'_>) -> Result<u32, AllocError>
    ensures path { IfOk result (StaticPath shape.now (outermost 0)) }
    ensures longest { IfOk result (λ budget. (n : ℕ) → StaticPath shape.now (outermost 0) n → n ≤ budget) }
    ensures within { IfOk result (λ budget. budget ≤ MAX_WRITTEN_OUT) }
{
    // The proof knows what the program of a shape is.
    let _program = shape.program();
    let lengths = lengths(alloc, shape)?;
    Ok(lengths[0])
}

/// The same from each slot where an instruction begins, to the exit of its function: 1 to `MAX_WRITTEN_OUT`, since each function of
/// a lawful shape is called from slot 0's, perhaps through others, and counts where that is written out.
pub fn lengths(alloc: Global, shape: &Shape<'_>) -> Result<Vec<u32>, AllocError>
    ensures { IfOk result (λ lengths. AreLongest shape.now lengths.items) }
{
    let program = shape.program();
    let mut lengths = vec![in alloc; 0u32; program.len()]?;
    for place in shape.postorder() {
        let place = usize::from(*place);
        let Some(insn) = program.fetch(place) else {
            unreachable!();
        };
        let longest = length_by(&lengths, Onward::of(place, insn));
        lengths[place] = longest;
    }
    Ok(lengths)
}

// The length of the longest path from a place, by those from where control goes on.
fn length_by(lengths: &[u32], way: Onward) -> u32
    requires entries { HasEntries (length lengths.now) way }
    requires small { (k : ℕ) → slice_index lengths.now k ≤ MAX_WRITTEN_OUT }
    ensures { result ≡ length_by lengths.now way }
{
    match way {
        Onward::Leaves => 1,
        Onward::Continues(next) => lengths[next] + 1,
        Onward::Branches(next, other) => lengths[next].max(lengths[other]) + 1,
        Onward::Enters(callee, next) => lengths[callee] + lengths[next] + 1,
    }
}
