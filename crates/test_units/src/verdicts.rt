// Want of memory, that the same call answers later, and how many checks a verdict takes.

use crate::structure::has_shape;
use base::OrMemory;
use bpf_asm::assemble;
use bpf_insn::Program;
use helpers::{HelperLimits, HelperSet, TableLengths};
use std::alloc::{AllocError, Global};
use verifier::{Cause, Refusal, verify};

/// If the run has a freeze it gives it back.
const RELEASE: &str = "jeq r2, 0, +2\nmov64 r1, r2\ncall 2\n";

/// Then its CCB waits again, with one retry fewer.
const REQUEUE: &str = "mov64 r1, 1\ncall 4\nmov64 r0, 0\nexit\n";

/// The same, by a function.
const REQUEUE_BY_FUNCTION: &str = "call local +2\nmov64 r0, 0\nexit\nmov64 r1, 1\ncall 4\nexit\n";

/// A jump, and two moves to which nothing leads.
const DEAD_CODE: &str = "ja +2\nmov64 r3, 1\nmov64 r3, 2\n";

/// A jump on what the clock read, both of whose ways are open, and a move that it jumps over.
const PAIR: &str = "jeq r0, 0, +1\nmov64 r3, 1\n";

/// The freeze and the context's address are spilled, a function is called and the clock read; on the way that a reading of 0 does
/// not take a number is set. Then the freeze is read back and given back, and the CCB waits again.
const SPILLING: &str = "stxdw [r10-8], r2\nstxdw [r10-16], r1\ncall local +11\ncall 11\n\
    jeq r0, 0, +1\nmov64 r3, 1\nldxdw r2, [r10-8]\njeq r2, 0, +2\nmov64 r1, r2\ncall 2\n\
    mov64 r1, 1\ncall 4\nmov64 r0, 0\nexit\nmov64 r0, 0\nexit\n";

// One queue and no table.
fn limits(alloc: Global) -> HelperLimits {
    HelperLimits {
        helpers: HelperSet::Queues,
        queues: 1,
        table_lengths: TableLengths::new(Vec::new(alloc)),
    }
}

/// The program of a text; none if the text is faulty. If memory is refused, the same call succeeds the second time.
pub fn program_of(alloc: Global, text: &str) -> Result<Option<Program>, AllocError> {
    let made = match assemble(alloc, text) {
        Err(OrMemory::OutOfMemory) => assemble(alloc, text),
        made => made,
    };
    match made {
        Ok(program) => Ok(Some(program)),
        Err(OrMemory::Fault(_)) => Ok(None),
        Err(OrMemory::OutOfMemory) => Err(AllocError),
    }
}

// The verdict on a text's program, as its budget and how many checks it took; none if the text is faulty. If memory is refused, the same
// call answers the second time.
fn verdict(alloc: Global, text: &str) -> Result<Option<Result<(u32, u32), Refusal>>, AllocError> {
    let Some(program) = program_of(alloc, text)? else {
        return Ok(None);
    };
    let limits = limits(alloc);
    let verdict = match verify(alloc, &program, &limits) {
        Err(OrMemory::OutOfMemory) => verify(alloc, &program, &limits),
        verdict => verdict,
    };
    match verdict {
        Ok(accepted) => Ok(Some(Ok((accepted.budget(), accepted.visits())))),
        Err(OrMemory::Fault(refusal)) => Ok(Some(Err(refusal))),
        Err(OrMemory::OutOfMemory) => Err(AllocError),
    }
}

// Whether the text's program is accepted with that budget, after as many checks.
fn takes(alloc: Global, text: &str, checks: u32) -> Result<bool, AllocError> {
    Ok(match verdict(alloc, text)? {
        Some(Ok((budget, visits))) => budget == checks && visits == checks,
        Some(Err(_)) | None => false,
    })
}

// Whether the text's program leaves with a freeze, at that slot.
fn leaks(alloc: Global, text: &str, slot: usize) -> Result<bool, AllocError> {
    Ok(match verdict(alloc, text)? {
        Some(Err(refusal)) => refusal == Refusal::Check(Cause::FreezeHeld, slot),
        Some(Ok(_)) | None => false,
    })
}

// The two texts, one after the other.
fn joined(alloc: Global, first: &str, second: &str) -> Result<String, AllocError> {
    match format!(in alloc; "{first}{second}") {
        Ok(text) => Ok(text),
        Err(AllocError) => format!(in alloc; "{first}{second}"),
    }
}

pub fn one_accepted_and_one_refused(alloc: Global) -> Result<bool, AllocError> {
    let policy = joined(alloc, RELEASE, REQUEUE)?;
    Ok(takes(alloc, policy.as_str(), 7)? && leaks(alloc, REQUEUE, 3)?)
}

/// The callee is checked where it is called.
pub fn a_local_call(alloc: Global) -> Result<bool, AllocError> {
    let policy = joined(alloc, RELEASE, REQUEUE_BY_FUNCTION)?;
    takes(alloc, policy.as_str(), 9)
}

/// What nothing leads to counts where the program is written out, and is not checked.
pub fn dead_code(alloc: Global) -> Result<bool, AllocError> {
    let front = joined(alloc, RELEASE, DEAD_CODE)?;
    let policy = joined(alloc, front.as_str(), REQUEUE)?;
    Ok(takes(alloc, policy.as_str(), 8)? && has_shape(alloc, policy.as_str(), 1, 10, 8)?)
}

/// Of so many pairs of a jump and a move each is checked once.
pub fn pairs_of_jumps(alloc: Global) -> Result<bool, AllocError> {
    let mut policy = joined(alloc, RELEASE, "call 11\n")?;
    for _ in 0..1300 {
        policy.push_str(PAIR)?;
    }
    policy.push_str(REQUEUE)?;
    takes(alloc, policy.as_str(), 2608)
}

/// Freeze and context's address stand on the stack over a local call, a helper's, and where two ways meet.
pub fn spilled(alloc: Global) -> Result<bool, AllocError> {
    takes(alloc, SPILLING, 16)
}
