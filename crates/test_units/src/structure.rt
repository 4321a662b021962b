// What the shape of a program is; of one that is no policy, as R0 is not known at its end, the budget too.

use crate::verdicts::program_of;
use budget_path::budget;
use call_shape::{ShapeFault, shape};
use std::alloc::{AllocError, Global};

/// Whether so many frames, instructions with local calls written out, and no other budget are those of this text's program.
pub fn has_shape(
    alloc: Global,
    text: &str,
    frames: u8,
    written_out: u32,
    longest: u32,
) -> Result<bool, AllocError> {
    let Some(program) = program_of(alloc, text)? else {
        return Ok(false);
    };
    let Ok(lawful) = shape(&program) else {
        return Ok(false);
    };
    let found = match budget(alloc, &lawful) {
        Ok(found) => found,
        Err(AllocError) => budget(alloc, &lawful)?,
    };
    Ok(lawful.frames() == frames && lawful.written_out() == written_out && found == longest)
}

// Whether the jump at that slot of this text's program goes backward.
fn goes_backward(alloc: Global, text: &str, slot: usize) -> Result<bool, AllocError> {
    let Some(program) = program_of(alloc, text)? else {
        return Ok(false);
    };
    Ok(match shape(&program) {
        Ok(_) => false,
        Err(fault) => fault == ShapeFault::TargetBackward(slot),
    })
}

/// A jump to itself is backward, and one to the next slot lawful.
pub fn self_jump(alloc: Global) -> Result<bool, AllocError> {
    Ok(goes_backward(alloc, "ja -1", 0)? && has_shape(alloc, "ja +0\nexit", 1, 2, 2)?)
}
