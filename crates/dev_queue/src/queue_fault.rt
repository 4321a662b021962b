// Why a device queue refuses a call.

use ccb::CallRefusal;
use std::fmt;

/// Why a call was refused. A refusal changes nothing. The text is the fault's code.
#[derive(Clone, Copy, Debug, PartialEq, Eq)]
pub enum QueueFault {
    /// Q1: 256 CCBs of the queue are live.
    Full,
    /// No CCB starts, for the reason by which the engine refuses a dispatch then.
    Refused(CallRefusal),
}

impl fmt::Display for QueueFault {
    ghost use Rattle.std.specs.Prelude.{Some};
    ghost use Rattle.dev_queue.specs.FaultText.{fault_text};

    ghost output = { λ fault. Some (fault_text fault) };

    fn fmt<W: fmt::Write>(&self, f: &mut fmt::Formatter<W>) -> fmt::Result {
        match self {
            QueueFault::Full => f.write_str("Q1"),
            QueueFault::Refused(refusal) => refusal.fmt(f),
        }
    }
}
