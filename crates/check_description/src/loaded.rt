// The register that was loaded last from the stack: as long as it holds what stands there, what is found of it is found of the stack
// too. It relies on `stack_domain` for the numbers that are kept.

ghost use Rattle.std.specs.Prelude.{◌≡◌, ℕ, List, IfSome, Some};
ghost use Rattle.scalar_domain.specs.Scalar.{Has};
ghost use Rattle.bpf_semantics.specs.MachineState.{MachineState, register};
ghost use Rattle.check_description.specs.declared.saved.SavedRegisters.{SavedRegisters};
ghost use Rattle.check_description.specs.Description.{DescribesWith};
ghost use Rattle.check_register_kinds.specs.Freezes.{FreezeNumbers};

use crate::description::Description;
use bpf_insn::Reg;
use scalar_domain::Scalar;
use stack_domain::NumberPlace;

impl Description {
    /// A register was found to hold one of these numbers. If it was loaded last, the same is known of what stands where it was
    /// loaded from.
    pub fn narrow_loaded(&mut self, reg: Reg, number: Scalar)
        ensures means { (numbers : FreezeNumbers) (callers : List SavedRegisters) (m : MachineState) (word : ℕ) → DescribesWith numbers callers self.old m → register m reg ≡ Some word → Has number word → DescribesWith numbers callers self.new m }
        ensures only { self.new ≡ record self.old { numbers = self.new.numbers } }
    {
        match self.loaded_from(reg) {
            Some(place) => self.numbers.keep(place, number),
            None => {}
        }
    }

    // The place on the stack from which a register was loaded, if it is the one that was loaded last.
    fn loaded_from(&self, reg: Reg) -> Option<NumberPlace>
        ensures { IfSome result (λ place. self.now.loaded ≡ Some (record { reg = reg; place = place })) }
    {
        match self.loaded {
            Some(loaded) if loaded.reg == reg => Some(loaded.place),
            _ => None,
        }
    }
}
