// Why a trace is no history of a configuration, and how that is printed.

use base::OrMemory;
use std::error::Error;
use std::fmt;

/// Which line of a trace is the first that does not follow.
#[derive(Clone, Copy, Debug, PartialEq, Eq)]
pub enum ReplayFault {
    /// X3: the header, which is line 1. The trace is of another version than the configuration's histories.
    Header,
    /// X4: the line after the header and so many carried lines. No engine of the configuration begins with these and with that line.
    Carried(usize),
    /// X3: the line after the header, so many carried lines and so many records. It does not follow from those before it.
    Behind { carried: usize, records: usize },
}

/// Why a trace was not replayed to its end: memory was refused, or a line does not follow.
pub type ReplayError = OrMemory<ReplayFault>;

impl fmt::Display for ReplayFault {
    ghost use Rattle.std.specs.Prelude.{Some};
    ghost use Rattle.replay.specs.Replaying.{fault_text};

    ghost output = { λ fault. Some (fault_text fault) };

    fn fmt<W: fmt::Write>(&self, f: &mut fmt::Formatter<W>) -> fmt::Result {
        match self {
            ReplayFault::Header => f.write_str("X3 at 1"),
            ReplayFault::Carried(count) => write!(f, "X4 at {}", *count as u128 + 2),
            ReplayFault::Behind { carried, records } => {
                write!(f, "X3 at {}", *carried as u128 + *records as u128 + 2)
            }
        }
    }
}

impl Error for ReplayFault {}
