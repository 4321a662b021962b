// What is known at a place, as far as a report shows it: all but what takes memory of its own. It relies on `check_description`.

use bpf_insn::Reg;
use check_description::Description;
use check_register_kinds::{Held, Kind};
use stack_domain::Stack;

/// What is known at a place of registers, of written stack bytes, of freezes, and of the CCB's disposal. A copy takes no memory.
#[derive(Clone, Copy, Debug)]
pub struct Sketch {
    /// The kinds of R0 to R10.
    pub registers: [Kind; 11],
    pub stack: Stack,
    pub held: Held,
    pub disposed: bool,
}

impl Sketch {
    /// That of all that is known there.
    pub fn of(known: &Description) -> Self {
        Sketch {
            registers: known.registers,
            stack: known.stack,
            held: known.held,
            disposed: known.disposed,
        }
    }

    /// What a register holds.
    pub fn kind(&self, reg: Reg) -> Kind {
        self.registers[usize::from(reg.number())]
    }
}
