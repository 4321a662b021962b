// Why a text is no trace, and how each such fault is printed; and why a trace is not printed.

use base::OrMemory;
use std::error::Error;
use std::fmt;

/// What is wrong with a text that is no trace. Its lines are numbered from 1, the header being the first.
#[derive(Clone, Copy, Debug, PartialEq, Eq)]
pub enum TraceFault {
    /// X1: the text begins with no version's header.
    Header,
    /// X2: the line of this number is the first that is not of the form. Where the last line is missing, this is the one after the
    /// others.
    Line(usize),
}

/// Why a trace was not read: memory was refused, or the text is none.
pub type TraceError = OrMemory<TraceFault>;

impl fmt::Display for TraceFault {
    ghost use Rattle.std.specs.Prelude.{Some};
    ghost use Rattle.trace.specs.FaultText.{fault_text};

    ghost output = { λ fault. Some (fault_text fault) };

    fn fmt<W: fmt::Write>(&self, f: &mut fmt::Formatter<W>) -> fmt::Result {
        match self {
            TraceFault::Header => f.write_str("X1 at 1"),
            TraceFault::Line(number) => write!(f, "X2 at {number}"),
        }
    }
}

impl Error for TraceFault {}

/// Why a trace was not printed: a write failed, and so many bytes of the text are out, from its beginning.
#[derive(Clone, Copy, Debug, PartialEq, Eq)]
pub struct PrintFault {
    pub written: u128,
}
