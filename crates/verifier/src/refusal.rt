// Why a program is not accepted.

ghost use Rattle.std.specs.Prelude.{◌≡◌};
ghost use Rattle.verifier.specs.Arrives.{FailsUnless};

use base::OrMemory;
use call_shape::ShapeFault;
use check_register_kinds::Cause;
use std::fmt;

/// Why a program is refused. The text is the fault's code and its slot.
#[derive(Clone, Copy, Debug, PartialEq, Eq)]
pub enum Refusal {
    Shape(ShapeFault),
    /// The check fails at that slot; for `PathsDisagree` it is the one where the paths join.
    Check(Cause, usize),
}

impl fmt::Display for Refusal {
    ghost use Rattle.std.specs.Prelude.{Some};
    ghost use Rattle.verifier.specs.RefusalText.{refusal_text};

    ghost output = { λ refusal. Some (refusal_text refusal) };

    fn fmt<W: fmt::Write>(&self, f: &mut fmt::Formatter<W>) -> fmt::Result {
        match self {
            Refusal::Shape(fault) => write!(f, "{fault}"),
            Refusal::Check(cause, slot) => write!(f, "{cause} at {slot}"),
        }
    }
}

/// Why a program was not accepted: memory was refused, or the program is.
pub type VerifyError = OrMemory<Refusal>;

// Why a check of the instruction at that slot was not made to the end.
pub(crate) fn refused(error: OrMemory<Cause>, slot: usize) -> VerifyError
    ensures { FailsUnless ⊥ result }
{
    match error {
        OrMemory::OutOfMemory => OrMemory::OutOfMemory,
        OrMemory::Fault(cause) => OrMemory::Fault(Refusal::Check(cause, slot)),
    }
}
