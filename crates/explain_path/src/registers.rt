// Sets of registers: those that an instruction reads or writes, and those of which two sketches say the same. It relies on
// `bpf_insn` and `sketch`.

use crate::sketch::Sketch;
use bpf_insn::{AluOp, Callee, Insn, Operand, Reg};

/// A set of R0 to R10.
#[derive(Clone, Copy, Debug, PartialEq, Eq)]
pub struct Registers {
    bits: u16,
}

impl Registers {
    /// None.
    pub fn none() -> Self {
        Registers { bits: 0 }
    }

    /// That one alone.
    pub fn only(reg: Reg) -> Self {
        Registers::none().with(reg)
    }

    /// With that one too.
    pub fn with(self, reg: Reg) -> Self {
        Registers {
            bits: self.bits | bit(reg),
        }
    }

    /// Without that one.
    pub fn without(self, reg: Reg) -> Self {
        Registers {
            bits: self.bits & !bit(reg),
        }
    }

    /// Those of both.
    pub fn union(self, other: Registers) -> Self {
        Registers {
            bits: self.bits | other.bits,
        }
    }

    /// Those that both have.
    pub fn common(self, other: Registers) -> Self {
        Registers {
            bits: self.bits & other.bits,
        }
    }

    /// Whether that one is among them.
    pub fn has(self, reg: Reg) -> bool {
        self.bits & bit(reg) != 0
    }

    /// How many they are.
    pub fn count(self) -> u32 {
        self.bits.count_ones()
    }

    /// Those of which both say the same.
    pub fn alike(one: &Sketch, other: &Sketch) -> Self {
        let mut alike = Registers::none();
        for number in 0u8..11 {
            if let Some(reg) = Reg::from_number(number) {
                if one.kind(reg) == other.kind(reg) {
                    alike = alike.with(reg);
                }
            }
        }
        alike
    }

    /// Those that an instruction reads. A helper may read R1, R2 and R3, and a function R1 to R5.
    pub fn read_by(insn: Insn) -> Self {
        match insn {
            Insn::Alu {
                op: AluOp::Mov,
                src,
                ..
            } => operand(src),
            Insn::Alu { dst, src, .. }
            | Insn::JumpIf { dst, src, .. }
            | Insn::Store { dst, src, .. } => operand(src).with(dst),
            Insn::InPlace { dst, .. } => Registers::only(dst),
            Insn::SignExtend { src, .. } | Insn::Load { src, .. } => Registers::only(src),
            Insn::LoadImmediate { .. } | Insn::Jump(_) => Registers::none(),
            Insn::Call(Callee::Helper(_)) => Registers::only(Reg::R1).with(Reg::R2).with(Reg::R3),
            Insn::Call(Callee::Local(_)) => Registers::only(Reg::R1)
                .with(Reg::R2)
                .with(Reg::R3)
                .with(Reg::R4)
                .with(Reg::R5),
            Insn::Exit => Registers::only(Reg::R0),
        }
    }
}

/// The register that an instruction gives a value, if it is one.
pub fn written_by(insn: Insn) -> Option<Reg> {
    match insn {
        Insn::Alu { dst, .. }
        | Insn::InPlace { dst, .. }
        | Insn::SignExtend { dst, .. }
        | Insn::LoadImmediate { dst, .. }
        | Insn::Load { dst, .. } => Some(dst),
        Insn::Call(Callee::Helper(_)) => Some(Reg::R0),
        Insn::Call(Callee::Local(_))
        | Insn::JumpIf { .. }
        | Insn::Jump(_)
        | Insn::Store { .. }
        | Insn::Exit => None,
    }
}

fn operand(src: Operand) -> Registers {
    match src {
        Operand::Immediate(_) => Registers::none(),
        Operand::Register(reg) => Registers::only(reg),
    }
}

fn bit(reg: Reg) -> u16 {
    1u16.wrapping_shl(u32::from(reg.number()))
}
