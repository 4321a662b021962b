// Why bytes are no program, and how each fault is printed.

use std::error::Error;
use std::fmt;

/// What is wrong with the bytes of one instruction. Where several hold, the first of this list is
/// named.
#[derive(Clone, Copy, Debug, PartialEq, Eq)]
pub enum InsnFault {
    /// E4: no instruction has the opcode.
    UnknownOpcode,
    /// E5: an instruction outside this project's profile of RFC 9669: the atomic ones (section 5.3),
    /// the legacy packet access (section 5.5), the 64-bit immediates with `src` 1 to 6 (section 5.4)
    /// and the call by BTF identifier (section 4.3).
    OutsideProfile,
    /// E6: a register number above 10.
    NoSuchRegister,
    /// E7: a field that the instruction does not use is not zero, or, of the second slot of a 64-bit
    /// immediate, one of the first four bytes (section 5.4).
    UnusedField,
    /// E8: the offset of a division, a remainder or a move from a register is none that RFC 9669,
    /// section 4.1, gives a meaning, or the imm of a byte order none that section 4.2 does.
    NoSuchForm,
    /// E9: a 64-bit immediate begins in the last slot, so that its second one is missing.
    CutShort,
    /// E10: an instruction of class LD, LDX, ALU or ALU64 has the frame pointer R10 as its
    /// destination, which is only read.
    FramePointer,
}

/// What is wrong with bytes that are no program. Slots are numbered from 0.
#[derive(Clone, Copy, Debug, PartialEq, Eq)]
pub enum DecodeFault {
    /// E1: there are no bytes.
    Empty,
    /// E2: the number of bytes is no multiple of 8.
    PartialSlot,
    /// E3: there are more than 4096 slots.
    TooManySlots,
    /// E4 to E10: the first faulty instruction begins at this slot.
    At { slot: usize, fault: InsnFault },
}

impl fmt::Display for InsnFault {
    ghost use Rattle.std.specs.Prelude.{Some};
    ghost use Rattle.bpf_decode.specs.FaultText.{insn_fault_text};

    ghost output = { λ fault. Some (insn_fault_text fault) };

    fn fmt<W: fmt::Write>(&self, f: &mut fmt::Formatter<W>) -> fmt::Result {
        f.write_str(match self {
            InsnFault::UnknownOpcode => "E4",
            InsnFault::OutsideProfile => "E5",
            InsnFault::NoSuchRegister => "E6",
            InsnFault::UnusedField => "E7",
            InsnFault::NoSuchForm => "E8",
            InsnFault::CutShort => "E9",
            InsnFault::FramePointer => "E10",
        })
    }
}

impl fmt::Display for DecodeFault {
    ghost use Rattle.std.specs.Prelude.{Some};
    ghost use Rattle.bpf_decode.specs.FaultText.{fault_text};

    ghost output = { λ fault. Some (fault_text fault) };

    fn fmt<W: fmt::Write>(&self, f: &mut fmt::Formatter<W>) -> fmt::Result {
        match self {
            DecodeFault::Empty => f.write_str("E1"),
            DecodeFault::PartialSlot => f.write_str("E2"),
            DecodeFault::TooManySlots => f.write_str("E3"),
            DecodeFault::At { slot, fault } => write!(f, "{fault} at {slot}"),
        }
    }
}

impl Error for DecodeFault {}
