// Why a text is no program, and how each fault is printed.

use std::error::Error;
use std::fmt;

/// What is wrong with a line. Where several hold, the first of this list is named.
#[derive(Clone, Copy, Debug, PartialEq, Eq)]
pub enum LineFault {
    /// A1: outside its comment the line holds what is no name, number or mark.
    NoToken,
    /// A2: the line is no label line, and does not begin with a mnemonic.
    NoMnemonic,
    /// A3: what follows the mnemonic is not of its form, or names the frame pointer R10 as the register to write.
    WrongForm,
    /// A4: a number is out of its range, or a label is too far away.
    OutOfRange,
    /// A5: the label was defined on an earlier line.
    LabelDefinedBefore,
    /// A6: no line defines the label.
    MissingLabel,
}

/// What is wrong with a text that is no program. Lines are numbered from 1.
#[derive(Clone, Copy, Debug, PartialEq, Eq)]
pub enum AsmFault {
    /// A1 to A6: this is the first faulty line.
    At { line: usize, fault: LineFault },
    /// A7: there is no instruction, or the instructions take more than 4096 slots.
    NoProgram,
}

impl fmt::Display for LineFault {
    ghost use Rattle.std.specs.Prelude.{Some};
    ghost use Rattle.bpf_asm.specs.FaultText.{line_fault_text};

    ghost output = { λ fault. Some (line_fault_text fault) };

    fn fmt<W: fmt::Write>(&self, f: &mut fmt::Formatter<W>) -> fmt::Result {
        f.write_str(match self {
            LineFault::NoToken => "A1",
            LineFault::NoMnemonic => "A2",
            LineFault::WrongForm => "A3",
            LineFault::OutOfRange => "A4",
            LineFault::LabelDefinedBefore => "A5",
            LineFault::MissingLabel => "A6",
        })
    }
}

impl fmt::Display for AsmFault {
    ghost use Rattle.std.specs.Prelude.{Some};
    ghost use Rattle.bpf_asm.specs.FaultText.{fault_text};

    ghost output = { λ fault. Some (fault_text fault) };

    fn fmt<W: fmt::Write>(&self, f: &mut fmt::Formatter<W>) -> fmt::Result {
        match self {
            AsmFault::At { line, fault } => write!(f, "{fault} at line {line}"),
            AsmFault::NoProgram => f.write_str("A7"),
        }
    }
}

impl Error for AsmFault {}
