// What becomes of what is known where a freeze is found to be 0 or not. It relies on `check_register_kinds` for what is held, and
// on `check_description` for one that is held no more.

ghost use Rattle.std.specs.Prelude.{◌≡◌, ◌<◌, ℕ, true, List, length, IsTrue, Some};
ghost use Rattle.bpf_semantics.specs.MachineState.{MachineState};
ghost use Rattle.check_private_insns.specs.declared.way.Way.TheVariants.{FallThrough, Taken};
ghost use Rattle.check_description.specs.declared.saved.SavedRegisters.{SavedRegisters};
ghost use Rattle.check_description.specs.Description.{Describes, DescribesWith};
ghost use Rattle.check_private_insns.specs.Enough.{LeavesTested};
ghost use Rattle.check_register_kinds.specs.Freezes.{FreezeNumbers};

use check_description::Description;
use check_register_kinds::{Certainty, FreezeName};
use scalar_domain::Scalar;

// The freeze of that name was found not to be 0.
pub(crate) fn freeze_is_sure(description: &mut Description, name: FreezeName)
    ensures kept { (numbers : FreezeNumbers) (callers : List SavedRegisters) (number : ℕ) (m : MachineState) → DescribesWith numbers callers description.old m → numbers name ≡ Some number → 0 < number → DescribesWith numbers callers description.new m }
    ensures leaves { LeavesTested FallThrough name description.old description.new }
    ensures depth { length description.new.stack ≡ length description.old.stack }
{
    description.held = description.held.with_sure(name);
}

// The freeze of that name was found to be 0, so there is none: the answer is whether that may be.
pub(crate) fn freeze_is_zero(description: &mut Description, name: FreezeName) -> bool
    ensures kept { (numbers : FreezeNumbers) (callers : List SavedRegisters) (m : MachineState) → DescribesWith numbers callers description.old m → numbers name ≡ Some 0 → (result ≡ true) × Describes callers description.new m }
    ensures leaves { IsTrue result → LeavesTested Taken name description.old description.new }
    ensures depth { length description.new.stack ≡ length description.old.stack }
{
    if description.held.certainty(name) == Some(Certainty::Sure) {
        return false;
    }
    description.give_up(name, Scalar::exactly(0));
    true
}
