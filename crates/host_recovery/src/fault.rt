// Why a segment was not recovered.

use base::OrMemory;
use replay::ReplayFault;
use trace::TraceFault;

/// What keeps an engine from being recovered.
#[derive(Clone, Copy, Debug, PartialEq, Eq)]
pub enum RecoveryFault {
    /// A read failed.
    Unread,
    /// The segment has more bytes than can be read.
    TooLong,
    /// X1 or X2: the text is no front of a trace.
    Form(TraceFault),
    /// X3: a line does not follow.
    Unfollowed(ReplayFault),
}

/// Why an engine was not recovered: memory was refused, or that fault.
pub type RecoveryError = OrMemory<RecoveryFault>;
