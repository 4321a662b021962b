// What is told of a live run. It relies on `ccb` for what it names.

use ccb::{CcbId, QueueId};

/// A run that has not ended, as the engine has it recorded.
#[derive(Clone, Copy, Debug, PartialEq, Eq)]
pub struct RunInfo {
    /// The CCB for which it was started.
    pub ccb: CcbId,
    /// The queue of that CCB, whose program it runs.
    pub queue: QueueId,
    /// The controller that this queue is under, from 0; 0 where there are none.
    pub controller: u32,
    /// Whether it is out; else it is parked.
    pub is_out: bool,
}
