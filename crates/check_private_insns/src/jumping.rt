// Conditional jumps: what one way tells of the registers that are compared, or of a freeze. It relies on
// `check_register_kinds` for what is found, and on `freeze` for what a freeze that was tested is then.

ghost use Rattle.std.specs.Prelude.{◌≡◌, ℕ, ℤ, ◌==◌, true, false, ◌⊎◌, List, IfOk, IsOkAnd, IsTrue, Some, length};
ghost use Rattle.bpf_insn.specs.declared.insn.Insn.TheVariants.{JumpIf};
ghost use Rattle.bpf_insn.specs.Reg.{number_of};
ghost use Rattle.bpf_semantics.specs.MachineState.{MachineState, register};
ghost use Rattle.bpf_semantics.specs.Step.{operand as operand_of};
ghost use Rattle.helpers.specs.declared.limits.HelperLimits.{HelperLimits};
ghost use Rattle.scalar_domain.specs.Scalar.{Has};
ghost use Rattle.check_description.specs.declared.saved.SavedRegisters.{SavedRegisters};
ghost use Rattle.check_description.specs.Description.{Describes, DescribesWith, kind_at, NeverStuck};
ghost use Rattle.check_private_insns.specs.Enough.{ChangesOnly, ComparesNumbers, LeavesCompared, LeavesKnown, LeavesTested, TestsFreeze};
ghost use Rattle.check_register_kinds.specs.Finds.{Found, IsOfNumbers, found_of};
ghost use Rattle.check_private_insns.specs.Follows.{Follows};
ghost use Rattle.check_register_kinds.specs.Freezes.{FreezeNumbers};
ghost use Rattle.check_private_insns.specs.GoesOn.{ReadsUnwritten, is_taken};

use crate::freeze::{freeze_is_sure, freeze_is_zero};
use crate::operands::{find, operand};
use crate::way::Way;
use bpf_insn::{Condition, Operand, Reg, Width};
use check_description::Description;
use check_register_kinds::{Cause, Finding, FreezeName, Kind, compared};
use scalar_domain::Scalar;

/// Goes one way of a jump: the answer is whether any machine does.
pub fn jump_if(
    description: &mut Description,
    width: Width,
    condition: Condition,
    dst: Reg,
    src: Operand,
    way: Way,
) -> Result<bool, Cause>
    ensures unstuck { IfOk result (λ is_open. (limits : HelperLimits) (callers : List SavedRegisters) (offset : ℤ) → NeverStuck limits callers (JumpIf width condition dst src offset) description.old) }
    ensures follows { IfOk result (λ is_open. (callers : List SavedRegisters) (offset : ℤ) → Follows callers (JumpIf width condition dst src offset) way description.old is_open description.new) }
    ensures leaves { (ComparesNumbers description.old dst src ⊎ TestsFreeze description.old width condition dst src) → IsOkAnd result (λ is_open. IsTrue is_open → LeavesCompared description.old width condition dst src way description.new) }
    ensures unwritten { ReadsUnwritten description.old src → result ≡ Err Cause.UnwrittenRegister }
    ensures unwritten_first { kind_at description.old dst ≡ Kind.Unwritten → result ≡ Err Cause.UnwrittenRegister }
    ensures depth { IfOk result (λ _. length description.new.stack ≡ length description.old.stack) }
{
    let first = description.kind(dst);
    let second = operand(description, src);
    let taken = way.is_taken();
    let finding = compared(width, condition, taken, first, second, is_constant(src))?;
    Ok(learn(description, dst, src, finding))
}

// Takes in what is found of the operands: the answer is whether any machine goes that way.
fn learn(description: &mut Description, dst: Reg, src: Operand, finding: Finding) -> bool
    ensures means { (numbers : FreezeNumbers) (callers : List SavedRegisters) (a b : ℕ) (m : MachineState) → DescribesWith numbers callers description.old m → register m dst ≡ Some a → operand_of m src ≡ Some b → Found numbers a b finding → (result ≡ true) × Describes callers description.new m }
    ensures constant { (value : ℤ) (left right : Scalar) → finding ≡ Finding.Numbers left right → src ≡ Operand.Immediate value → kind_at description.new dst ≡ Kind.Number left }
    ensures right { (reg : Reg) (left right : Scalar) → finding ≡ Finding.Numbers left right → src ≡ Operand.Register reg → kind_at description.new reg ≡ Kind.Number right }
    ensures numbers { ComparesNumbers description.old dst src → IsOfNumbers finding → LeavesKnown description.old description.new × (description.new.held ≡ description.old.held) }
    ensures tested { (way : Way) (name : FreezeName) → finding ≡ found_of name (is_taken way) → IsTrue result → LeavesTested way name description.old description.new }
    ensures depth { length description.new.stack ≡ length description.old.stack }
{
    match finding {
        Finding::NoWay => return false,
        Finding::Numbers(left, right) => narrow(description, dst, src, left, right),
        Finding::FreezeIsZero(name) => return freeze_is_zero(description, name),
        Finding::FreezeIsSure(name) => freeze_is_sure(description, name),
    }
    true
}

// The registers that are compared hold one of these numbers each.
fn narrow(description: &mut Description, dst: Reg, src: Operand, left: Scalar, right: Scalar)
    ensures means { (numbers : FreezeNumbers) (callers : List SavedRegisters) (a b : ℕ) (m : MachineState) → DescribesWith numbers callers description.old m → register m dst ≡ Some a → operand_of m src ≡ Some b → Has left a → Has right b → DescribesWith numbers callers description.new m }
    ensures constant { (value : ℤ) → src ≡ Operand.Immediate value → kind_at description.new dst ≡ Kind.Number left }
    ensures left { (reg : Reg) → src ≡ Operand.Register reg → (number_of dst == number_of reg) ≡ false → kind_at description.new dst ≡ Kind.Number left }
    ensures right { (reg : Reg) → src ≡ Operand.Register reg → kind_at description.new reg ≡ Kind.Number right }
    ensures known { ComparesNumbers description.old dst src → LeavesKnown description.old description.new }
    ensures held { description.new.held ≡ description.old.held }
    ensures depth { length description.new.stack ≡ length description.old.stack }
{
    narrow_one(description, dst, left);
    if let Operand::Register(reg) = src {
        narrow_one(description, reg, right);
    }
}

// A register that is compared holds one of these numbers, and so does the place on the stack from which it was loaded last.
fn narrow_one(description: &mut Description, reg: Reg, number: Scalar)
    ensures means { (numbers : FreezeNumbers) (callers : List SavedRegisters) (m : MachineState) (word : ℕ) → DescribesWith numbers callers description.old m → register m reg ≡ Some word → Has number word → DescribesWith numbers callers description.new m }
    ensures set { kind_at description.new reg ≡ Kind.Number number }
    ensures only { ChangesOnly reg description.old description.new }
{
    find(description, reg, Kind::Number(number));
    description.narrow_loaded(reg, number);
}

// Whether an operand is the instruction's own constant.
fn is_constant(src: Operand) -> bool
    ensures constant { (value : ℤ) → src ≡ Operand.Immediate value → result ≡ true }
    ensures register { (reg : Reg) → src ≡ Operand.Register reg → result ≡ false }
{
    matches!(src, Operand::Immediate(_))
}
