// In which function of a program a slot is. It relies on `program` for where calls lead.

use crate::program::target_of;
use bpf_insn::{Callee, Insn, Program};

/// The slot at which the function begins that a slot is in: 0, or the last one up to it to which a local call leads.
pub fn function_of(program: &Program, slot: usize) -> usize {
    let mut start = 0usize;
    for place in 0..program.len() {
        if is_local_call(program, place) {
            let to = target_of(program, place).unwrap_or(0);
            if start < to && to <= slot && program.fetch(to).is_some() {
                start = to;
            }
        }
    }
    start
}

/// Whether a local call begins in a slot.
pub fn is_local_call(program: &Program, place: usize) -> bool {
    match program.fetch(place) {
        Some(insn) => matches!(insn, Insn::Call(Callee::Local(_))),
        None => false,
    }
}
