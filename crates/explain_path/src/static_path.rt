// Whether slots are those of a static path through a program. It relies on `call_shape` for where instructions lead.

ghost use Rattle.std.specs.Prelude.{◌≡◌, ◌↔◌, ◌∷◌, ℕ, List, IfOk, IsTrue, false};
ghost use Rattle.bpf_insn.specs.declared.insn.Insn.{Insn as TheInsn};
ghost use Rattle.call_shape.specs.Onward.{onward};
ghost use Rattle.call_shape.specs.StaticPath.{StepLeadsTo};
ghost use Rattle.explain_path.specs.Passes.{IsPath, StandingLeads, standing};

use bpf_insn::{MAX_SLOTS, Program};
use call_shape::Onward;
use std::alloc::{AllocError, Global};

/// Whether these are the slots of a static path through the program, from slot 0 to the last of them.
#[tactic(auto, using(crate::proofs::Paths::some_first))]
pub fn is_static_path(alloc: Global, program: &Program, slots: &[usize]) -> Result<bool, AllocError>
    ensures { IfOk result (λ yes. IsTrue yes ↔ IsPath program.now slots.now) }
{
    match slots {
        [first, rest @ ..] => begins_with(alloc, program, *first, rest),
        [] => Ok(false),
    }
}

// Whether the first slot is 0, and control may come from there to the others.
fn begins_with(
    alloc: Global,
    program: &Program,
    first: usize,
    rest: &[usize],
) -> Result<bool, AllocError>
    ensures yes { IfOk result (λ yes. IsTrue yes → IsPath program.now (first ∷ rest.now)) }
    ensures no { IfOk result (λ yes. yes ≡ false → IsPath program.now (first ∷ rest.now) → ⊥) }
{
    if first == 0 {
        leads_on(alloc, program, rest)
    } else {
        Ok(false)
    }
}

// Whether control may come from slot 0 to these, one after the other.
fn leads_on(alloc: Global, program: &Program, slots: &[usize]) -> Result<bool, AllocError>
    ensures yes { IfOk result (λ yes. IsTrue yes → IsPath program.now (0 ∷ slots.now)) }
    ensures no { IfOk result (λ yes. yes ≡ false → IsPath program.now (0 ∷ slots.now) → ⊥) }
{
    let mut returns = Vec::new(alloc);
    let mut at = 0;
    for slot in slots {
        if !leads(program, at, *slot, &mut returns)? {
            return Ok(false);
        }
        at = *slot;
    }
    Ok(true)
}

// Whether control may lead from a slot, where these calls are open, the innermost first, to another; then those are.
fn leads(
    program: &Program,
    from: usize,
    to: usize,
    returns: &mut Vec<usize>,
) -> Result<bool, AllocError>
    ensures yes { IfOk result (λ yes. IsTrue yes → StandingLeads program.now (standing from returns.old.items) (standing to returns.new.items)) }
    ensures no { IfOk result (λ yes. yes ≡ false → (there : List ℕ) → StandingLeads program.now (standing from returns.old.items) (standing to there) → ⊥) }
{
    match program.fetch(from) {
        Some(insn) if from < MAX_SLOTS => leads_by(Onward::of(from, insn), to, returns),
        _ => Ok(false),
    }
}

// Whether it may lead there by where an instruction lets it go on.
fn leads_by(way: Onward, to: usize, returns: &mut Vec<usize>) -> Result<bool, AllocError>
    ensures yes { IfOk result (λ yes. IsTrue yes → (from : ℕ) (insn : TheInsn) → onward from insn ≡ way → StepLeadsTo (standing from returns.old.items) insn (standing to returns.new.items)) }
    ensures no { IfOk result (λ yes. yes ≡ false → (from : ℕ) (insn : TheInsn) (there : List ℕ) → onward from insn ≡ way → StepLeadsTo (standing from returns.old.items) insn (standing to there) → ⊥) }
{
    match way {
        Onward::Leaves => Ok(returns_to(to, returns)),
        Onward::Continues(next) => Ok(next == to),
        Onward::Branches(next, other) => Ok(next == to || other == to),
        Onward::Enters(callee, next) => {
            returns.insert(0, next)?;
            Ok(callee == to)
        }
    }
}

// Whether an exit leads there: the innermost call is open no more.
fn returns_to(to: usize, returns: &mut Vec<usize>) -> bool
    ensures yes { IsTrue result → returns.old.items ≡ to ∷ returns.new.items }
    ensures no { result ≡ false → (there : List ℕ) → returns.old.items ≡ to ∷ there → ⊥ }
{
    if returns.is_empty() {
        return false;
    }
    returns.remove(0) == to
}
