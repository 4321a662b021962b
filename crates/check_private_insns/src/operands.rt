// Operands where a machine is described, and a register that becomes another. It relies on `check_register_kinds` for constants.

ghost use Rattle.std.specs.Prelude.{◌≡◌, List, IfSome, Some};
ghost use Rattle.bpf_insn.specs.Reg.{number_of};
ghost use Rattle.bpf_semantics.specs.MachineState.{MachineState};
ghost use Rattle.bpf_semantics.specs.Step.{operand as operand_of};
ghost use Rattle.check_description.specs.declared.saved.SavedRegisters.{SavedRegisters};
ghost use Rattle.check_description.specs.Description.{DescribesWith, kind_at};
ghost use Rattle.check_private_insns.specs.Enough.{ChangesOnly, IsMoved, IsNumberOperand, Replaces};
ghost use Rattle.check_register_kinds.specs.Freezes.{FreezeNumbers};
ghost use Rattle.check_private_insns.specs.GoesOn.{ReadsUnwritten};
ghost use Rattle.check_register_kinds.specs.Kinds.{HoldsKind, IsNumber};

use bpf_insn::{Operand, Reg};
use check_description::{Description, Loaded};
use check_register_kinds::Kind;

// What an operand is.
pub(crate) fn operand(description: &Description, src: Operand) -> Kind
    ensures holds { (numbers : FreezeNumbers) (callers : List SavedRegisters) (m : MachineState) → DescribesWith numbers callers description.now m → HoldsKind numbers result (operand_of m src) }
    ensures moved { IsMoved description.now src result }
    ensures number { IsNumberOperand description.now src → IsNumber result }
    ensures unwritten { ReadsUnwritten description.now src → result ≡ Kind.Unwritten }
{
    match src {
        Operand::Immediate(value) => Kind::exactly(i64::from(value).cast_unsigned()),
        Operand::Register(reg) => description.kind(reg),
    }
}

// Makes that what a register holds.
pub(crate) fn set(description: &mut Description, reg: Reg, kind: Kind)
    ensures set { kind_at description.new reg ≡ kind }
    ensures replaces { Replaces reg description.old description.new }
{
    description.registers[usize::from(reg.number())] = kind;
    description.loaded = kept_loaded(description.loaded, reg);
}

// What is left of the register that was loaded last where one is written.
fn kept_loaded(loaded: Option<Loaded>, reg: Reg) -> Option<Loaded>
    ensures { IfSome result (λ kept. (loaded ≡ Some kept) × (number_of kept.reg ≡ number_of reg → ⊥)) }
{
    match loaded {
        Some(kept) if kept.reg.number() != reg.number() => Some(kept),
        _ => None,
    }
}

// More is found of what a register holds: it is that.
pub(crate) fn find(description: &mut Description, reg: Reg, kind: Kind)
    ensures found { kind_at description.new reg ≡ kind }
    ensures only { ChangesOnly reg description.old description.new }
    ensures numbers { description.new.numbers ≡ description.old.numbers }
    ensures loaded { description.new.loaded ≡ description.old.loaded }
{
    description.registers[usize::from(reg.number())] = kind;
}
