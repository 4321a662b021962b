// Why a caller is not given out, and why a shared engine is not closed. It relies on nothing.
use std::error::Error;
use std::fmt;

/// A fault of a shared engine, which users see by its code.
#[derive(Clone, Copy, Debug, PartialEq, Eq)]
pub enum LockFault {
    /// L1: as many callers were given out as there may be.
    TooManyCallers,
    /// L2: a caller that was given out was not handed in.
    CallerMissing,
}

impl fmt::Display for LockFault {
    fn fmt<W: fmt::Write>(&self, f: &mut fmt::Formatter<W>) -> fmt::Result {
        match self {
            LockFault::TooManyCallers => write!(f, "L1: 64 callers were given out"),
            LockFault::CallerMissing => write!(f, "L2: a caller of the engine is missing"),
        }
    }
}

impl Error for LockFault {}
