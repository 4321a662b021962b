// What becomes of what is known where a freeze is held no more. It relies on `check_register_kinds` for what is held, and on
// `registers` and `spills` for copies of a freeze.

ghost use Rattle.std.specs.Prelude.{◌≡◌, ℕ, List, length, None, Some};
ghost use Rattle.bpf_semantics.specs.MachineState.{MachineState};
ghost use Rattle.bpf_semantics.specs.Step.{held_without};
ghost use Rattle.scalar_domain.specs.Scalar.{Has};
ghost use Rattle.check_description.specs.declared.saved.SavedRegisters.{SavedRegisters};
ghost use Rattle.check_description.specs.Description.{DescribesWith};
ghost use Rattle.check_description.specs.Changes.{LeavesGivenUp};
ghost use Rattle.check_register_kinds.specs.Freezes.{FreezeNumbers, renumbered};

use crate::description::Description;
use crate::registers::give_up_copies;
use check_register_kinds::{FreezeName, Kind};
use scalar_domain::Scalar;

impl Description {
    /// The freeze of that name, which was one of these numbers, is held no more. A spilled copy is a number, of which
    /// nothing is known.
    pub fn give_up(&mut self, name: FreezeName, copies: Scalar)
        ensures kept { (numbers : FreezeNumbers) (callers : List SavedRegisters) (number : ℕ) (m : MachineState) → DescribesWith numbers callers self.old m → numbers name ≡ Some number → Has copies number → DescribesWith (renumbered numbers name None) callers self.new (record m { held = held_without m.held number }) }
        ensures leaves { LeavesGivenUp name (Kind.Number copies) self.old self.new }
        ensures depth { length self.new.stack ≡ length self.old.stack }
    {
        give_up_copies(&mut self.registers, name, copies);
        self.spills.give_up(name);
        self.held = self.held.without(name);
    }
}
