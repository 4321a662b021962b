// Why a file of cases is not read. It relies on nothing.

ghost use Rattle.std.specs.Prelude.{◌≡◌};
ghost use Rattle.test_cases.specs.declared.fault.LineFault.TheVariants.{OutOfMemory};

use std::alloc::AllocError;
use thiserror::Error;

/// What is wrong with a line.
#[derive(Clone, Copy)]
pub enum LineFault {
    OutOfMemory,
    /// It is not of the form, or does not belong where it stands.
    Form,
    /// The case of that line, which ends before, has no words, or no trace for its calls.
    Case(usize),
}

/// Why a file of cases is not read.
#[derive(Clone, Copy, Debug, Error)]
pub enum CaseError {
    #[error("out of memory")]
    OutOfMemory,
    /// That line is not of the form, or does not belong there.
    #[error("line {0} is not of the form")]
    Line(usize),
    /// The case of that line has no words, or no trace for its calls.
    #[error("the case of line {0} has no words, or no trace for its calls")]
    Case(usize),
}

impl LineFault {
    /// The fault of the line of that number.
    pub fn at(self, line: usize) -> CaseError {
        match self {
            LineFault::OutOfMemory => CaseError::OutOfMemory,
            LineFault::Form => CaseError::Line(line),
            LineFault::Case(line) => CaseError::Case(line),
        }
    }
}

impl From<AllocError> for LineFault {
    ghost from_gives = { λ _ fault. fault ≡ OutOfMemory };

    fn from(_: AllocError) -> Self {
        LineFault::OutOfMemory
    }
}
