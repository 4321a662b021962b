// Programs that are made of instructions, and want of memory.

use bpf_insn::{AluOp, Insn, Operand, Program, ProgramBuilder, Reg, Width};
use std::alloc::{AllocError, Global};

/// `mov64 r1, -1`.
const LOAD: Insn = Insn::Alu {
    width: Width::Bits64,
    op: AluOp::Mov,
    dst: Reg::R1,
    src: Operand::Immediate(-1),
};

pub fn compares_by_instructions(alloc: Global) -> Result<bool, AllocError> {
    let (Some(program), Some(longer)) = (
        Program::new(alloc, &[LOAD, Insn::Exit])?,
        Program::new(alloc, &[LOAD, LOAD, Insn::Exit])?,
    ) else {
        return Ok(false);
    };
    let copy = program.try_clone()?;
    Ok(program == copy && program != longer && longer.fetch(2) == Some(Insn::Exit))
}

// Pushes an instruction. If memory runs out, the builder is as it was, and the same call succeeds the second time.
fn push(builder: &mut ProgramBuilder, insn: Insn) -> bool {
    builder.push(insn).is_ok() || builder.push(insn).is_ok()
}

/// The program of two instructions that a builder without room makes.
pub fn goes_on_after_want_of_memory(alloc: Global) -> Result<bool, AllocError> {
    let mut builder = match ProgramBuilder::with_capacity(alloc, 0) {
        Ok(builder) => builder,
        Err(AllocError) => ProgramBuilder::with_capacity(alloc, 0)?,
    };
    let pushed = push(&mut builder, LOAD) && push(&mut builder, Insn::Exit);
    Ok(match builder.build() {
        Some(program) => pushed && program.len() == 2 && program.fetch(0) == Some(LOAD),
        None => false,
    })
}
