// What a call of the engine is answered. It relies on `call_refusal` for why one is refused.

use ccb::{CallRefusal, CcbId};

/// The answer to a call.
#[derive(Clone, Copy, Debug, PartialEq, Eq)]
pub enum CallAnswer {
    /// The number of the CCB that was submitted or started, from 1.
    Ccb(CcbId),
    /// The number of the CCB that was started, and what was advised for this start, or 0: where CCBs have an advice.
    Advised(CcbId, u32),
    /// The CCB is finished.
    Done,
    /// A run of the queue's program started, with the freeze of that number, or with none as number 0.
    Started { run: u32, freeze: u32 },
    /// The number of the freeze that was taken, from 1.
    Freeze(u32),
    /// How many freezes the place has after one was given back, 0 to 254.
    Left(u32),
    /// How many freezes went since their timers were due, 0 to 1024.
    Removed(u32),
    /// The CCB is withdrawn, or the run is parked, or out again.
    Ok,
    /// The call was refused, and changed nothing but the history.
    Refused(CallRefusal),
}
