// What becomes of the machines at a place by its instruction, and whether one of them may be stuck there. It relies on
// `check_description` for what is known of them, on `check_private_insns` for arithmetic, memory and jumps, and on `check_helper_calls` for
// calls of helpers.

ghost use Rattle.std.specs.Prelude.{◌≡◌, ℤ, [], true, false, length, IfOk, IsOk, IsOkAnd, IsTrue};
ghost use Rattle.bpf_insn.specs.declared.insn.Callee.TheVariants.{Helper as helper_call};
ghost use Rattle.bpf_insn.specs.declared.insn.Insn.TheVariants.{Call, Exit};
ghost use Rattle.bpf_insn.specs.declared.reg.Reg.TheVariants.{R0};
ghost use Rattle.check_private_insns.specs.declared.way.Way.TheVariants.{FallThrough};
ghost use Rattle.check_register_kinds.specs.declared.freeze_name.FreezeName.TheVariants as names;
ghost use Rattle.check_description.specs.Description.{kind_at, NeverStuck};
ghost use Rattle.check_helper_calls.specs.Called.{CanCall, LeavesCalled};
ghost use Rattle.reg_domain.specs.Enough.{Enough, Leaves};
ghost use Rattle.check_private_insns.specs.Follows.{Follows};
ghost use Rattle.reg_domain.specs.Ways.{HasWay, IsStore, Stays};
ghost use Rattle.check_register_kinds.specs.Kinds.{IsNumber};

use base::OrMemory;
use bpf_insn::{Callee, Insn, Reg};
use check_description::{Description, SavedRegisters};
use check_helper_calls::call;
use check_private_insns::{
    Way, change, compute, extend, jump_if, load, load_immediate, store_operand,
};
use check_register_kinds::Cause;
use helpers::HelperLimits;

/// Checks an instruction where this is known, under these limits of helper calls and where these functions wait, the
/// outermost first, and goes one way from there: then it is what is known there, and the answer is whether any machine
/// goes that way. A freeze that is taken is named by the place: the number that the verifier gives the check of this
/// instruction under this chain of calls, so that no two checks name a freeze alike.
///
/// # Errors
/// Why a machine may be stuck there; or that there is no memory, which only a store of an address or a freeze takes. What is
/// known then is not said.
pub fn follow(
    description: &mut Description,
    limits: &HelperLimits,
    callers: &[SavedRegisters],
    insn: Insn,
    place: u32,
    way: Way,
) -> Result<bool, OrMemory<Cause>>
    requires stays { Stays callers.now insn }
    ensures unstuck { IfOk result (λ is_open. NeverStuck limits.now callers.now insn description.old) }
    ensures follows { IfOk result (λ is_open. Follows callers.now insn way description.old is_open description.new) }
    ensures depth { IfOk result (λ is_open. length description.new.stack ≡ length description.old.stack) }
    ensures ways { IfOk result (λ is_open. IsTrue is_open → HasWay insn way) }
    ensures passes { Enough insn description.old → IsOkAnd result (λ is_open. IsTrue is_open → Leaves insn way description.old description.new) }
    ensures calls { (number : ℤ) → insn ≡ Call (helper_call number) → CanCall limits.now callers.now description.old (names.Call place) number → IsOkAnd result (λ is_open. IsTrue is_open → LeavesCalled (names.Call place) description.old number description.new) }
{
    match insn {
        Insn::Store {
            size,
            dst,
            src,
            offset,
        } => {
            store_operand(description, size, dst, src, offset)?;
            Ok(!way.is_taken())
        }
        _ => match follow_other(description, limits, callers, insn, place, way) {
            Ok(is_open) => Ok(is_open),
            Err(cause) => Err(OrMemory::Fault(cause)),
        },
    }
}

// The same for an instruction that is no store.
fn follow_other(
    description: &mut Description,
    limits: &HelperLimits,
    callers: &[SavedRegisters],
    insn: Insn,
    place: u32,
    way: Way,
) -> Result<bool, Cause>
    requires stays { Stays callers.now insn }
    requires other { IsStore insn → ⊥ }
    ensures unstuck { IfOk result (λ is_open. NeverStuck limits.now callers.now insn description.old) }
    ensures follows { IfOk result (λ is_open. Follows callers.now insn way description.old is_open description.new) }
    ensures depth { IfOk result (λ is_open. length description.new.stack ≡ length description.old.stack) }
    ensures ways { IfOk result (λ is_open. IsTrue is_open → HasWay insn way) }
    ensures passes { Enough insn description.old → IsOkAnd result (λ is_open. IsTrue is_open → Leaves insn way description.old description.new) }
    ensures calls { (number : ℤ) → insn ≡ Call (helper_call number) → CanCall limits.now callers.now description.old (names.Call place) number → IsOkAnd result (λ is_open. IsTrue is_open → LeavesCalled (names.Call place) description.old number description.new) }
{
    match insn {
        Insn::Alu {
            width,
            op,
            dst,
            src,
        } => compute(description, width, op, dst, src)?,
        Insn::InPlace { op, dst } => change(description, op, dst)?,
        Insn::SignExtend {
            extension,
            dst,
            src,
        } => extend(description, extension, dst, src)?,
        Insn::LoadImmediate { dst, value } => load_immediate(description, dst, value),
        Insn::Load {
            form,
            dst,
            src,
            offset,
        } => load(description, form, dst, src, offset)?,
        Insn::Store { .. } => unreachable!(),
        Insn::Call(callee) => call_function(description, limits, callers, callee, place)?,
        Insn::JumpIf {
            width,
            condition,
            dst,
            src,
            offset: _,
        } => return jump_if(description, width, condition, dst, src, way),
        Insn::Jump(_) => return Ok(way.is_taken()),
        Insn::Exit => return exit(description),
    }
    Ok(!way.is_taken())
}

// Calls a helper: a local call does not stay in its function.
fn call_function(
    description: &mut Description,
    limits: &HelperLimits,
    callers: &[SavedRegisters],
    callee: Callee,
    place: u32,
) -> Result<(), Cause>
    requires { Stays callers.now (Call callee) }
    ensures unstuck { IfOk result (λ _. NeverStuck limits.now callers.now (Call callee) description.old) }
    ensures follows { IfOk result (λ _. Follows callers.now (Call callee) FallThrough description.old true description.new) }
    ensures depth { IfOk result (λ _. length description.new.stack ≡ length description.old.stack) }
    ensures leaves { Enough (Call callee) description.old → IsOkAnd result (λ _. Leaves (Call callee) FallThrough description.old description.new) }
    ensures calls { (number : ℤ) → callee ≡ helper_call number → CanCall limits.now callers.now description.old (names.Call place) number → IsOkAnd result (λ _. LeavesCalled (names.Call place) description.old number description.new) }
{
    match callee {
        Callee::Helper(number) => call(description, limits, callers, number, place),
        Callee::Local(_) => unreachable!(),
    }
}

// At the exit of the run no freeze is held, nor may be, the CCB is disposed of, and R0 is a number: it is told which of these is
// the first that does not hold. No machine goes on.
fn exit(description: &Description) -> Result<bool, Cause>
    ensures unstuck { IfOk result (λ _. (limits : HelperLimits) → NeverStuck limits [] Exit description.now) }
    ensures ends { IfOk result (λ is_open. is_open ≡ false) }
    ensures passes { Enough Exit description.now → IsOk result }
    ensures held { (description.now.held ≡ [] → ⊥) → result ≡ Err Cause.FreezeHeld }
    ensures disposal { description.now.held ≡ [] → description.now.disposed ≡ false → result ≡ Err Cause.NotDisposed }
    ensures number { description.now.held ≡ [] → description.now.disposed ≡ true → (IsNumber (kind_at description.now R0) → ⊥) → result ≡ Err Cause.NoResult }
{
    if !description.held.is_empty() {
        return Err(Cause::FreezeHeld);
    }
    if !description.disposed {
        return Err(Cause::NotDisposed);
    }
    if description.kind(Reg::R0).is_number() {
        Ok(false)
    } else {
        Err(Cause::NoResult)
    }
}
