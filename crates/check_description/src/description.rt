// What holds of every machine that comes to a place: each register's kind, the written stack bytes, what is spilled, the
// freezes and the CCB's disposal. It relies on `check_register_kinds` for a register and for freezes, on `stack_domain` for the
// stack, and on `spills` for what stands on it besides numbers.

ghost use Rattle.std.specs.Prelude.{◌≡◌, [], IfOk, IsOk};
ghost use Rattle.check_description.specs.Description.{kind_at};

use crate::spills::Spills;
use bpf_insn::Reg;
use check_register_kinds::{Held, Kind};
use stack_domain::{NumberPlace, Stack, StackNumbers};
use std::alloc::AllocError;

/// A register and the place on the stack from which it was loaded.
#[derive(Clone, Copy, Debug, PartialEq, Eq)]
pub struct Loaded {
    pub reg: Reg,
    pub place: NumberPlace,
}

/// What is known of a machine where it comes to a place, but for the registers of functions that wait for one that they
/// called.
#[derive(Debug, Drop)]
pub struct Description {
    /// The kinds of R0 to R10.
    pub registers: [Kind; 11],
    /// Which stack bytes are written.
    pub stack: Stack,
    /// Which addresses and freezes stand on the stack.
    pub spills: Spills,
    /// Which numbers stand there, as far as that is kept.
    pub numbers: StackNumbers,
    /// The register that was loaded last, as long as it holds what stands there.
    pub loaded: Option<Loaded>,
    /// Which freezes the run holds.
    pub held: Held,
    /// Whether the CCB waits again or is finished.
    pub disposed: bool,
}

impl Description {
    /// What a register holds.
    pub fn kind(&self, reg: Reg) -> Kind
        ensures { result ≡ kind_at self.now reg }
    {
        self.registers[usize::from(reg.number())]
    }

    /// A copy. It takes memory only if something is spilled or a number is kept.
    pub fn try_copy(&self) -> Result<Self, AllocError>
        ensures copy { IfOk result (λ copy. copy ≡ self.now) }
        ensures small { self.now.spills ≡ [] → self.now.numbers ≡ [] → IsOk result }
    {
        let spills = self.spills.try_copy()?;
        let numbers = self.numbers.try_copy()?;
        Ok(Description {
            registers: self.registers,
            stack: self.stack,
            spills,
            numbers,
            loaded: self.loaded,
            held: self.held,
            disposed: self.disposed,
        })
    }
}
