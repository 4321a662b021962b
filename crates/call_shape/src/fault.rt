// Why a program has no lawful shape.

use std::fmt;

/// What is wrong with a program's shape, with the slot where it is. The text is the fault's code and slot, which is 0
/// where the fault is of the whole program.
#[derive(Clone, Copy, Debug, PartialEq, Eq)]
pub enum ShapeFault {
    /// S1: the last instruction of a function is neither an exit nor an unconditional jump.
    OpenEnd(usize),
    /// S2: a jump's target is outside the program.
    TargetOutside(usize),
    /// S3: a jump's target is the second slot of an instruction.
    TargetSecondSlot(usize),
    /// S4: a jump's target is not after the jump.
    TargetBackward(usize),
    /// S5: no instruction of the program begins where a local call leads.
    NoSuchFunction(usize),
    /// S6: a jump's target is in another function.
    LeavesFunction(usize),
    /// S7: a local call lies on a cycle of calls.
    CallCycle(usize),
    /// S8: a static path has more than `MAX_FRAMES` frames.
    TooManyFrames,
    /// S9: there are more than `MAX_WRITTEN_OUT` instructions with all local calls written out.
    TooLong,
}

impl fmt::Display for ShapeFault {
    ghost use Rattle.std.specs.Prelude.{Some};
    ghost use Rattle.call_shape.specs.FaultText.{fault_text};

    ghost output = { λ fault. Some (fault_text fault) };

    fn fmt<W: fmt::Write>(&self, f: &mut fmt::Formatter<W>) -> fmt::Result {
        match self {
            ShapeFault::OpenEnd(slot) => write!(f, "S1 at {slot}"),
            ShapeFault::TargetOutside(slot) => write!(f, "S2 at {slot}"),
            ShapeFault::TargetSecondSlot(slot) => write!(f, "S3 at {slot}"),
            ShapeFault::TargetBackward(slot) => write!(f, "S4 at {slot}"),
            ShapeFault::NoSuchFunction(slot) => write!(f, "S5 at {slot}"),
            ShapeFault::LeavesFunction(slot) => write!(f, "S6 at {slot}"),
            ShapeFault::CallCycle(slot) => write!(f, "S7 at {slot}"),
            ShapeFault::TooManyFrames => f.write_str("S8 at 0"),
            ShapeFault::TooLong => f.write_str("S9 at 0"),
        }
    }
}
