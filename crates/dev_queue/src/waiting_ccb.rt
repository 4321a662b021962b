// A CCB as its queue knows it while it waits. It relies on `ccb` for the names of CCBs.

use ccb::CcbId;

/// A CCB that waits: a lower priority number starts first, and among equals a lower CCB number.
#[derive(Clone, Copy, Debug, PartialEq, Eq)]
pub struct WaitingCcb {
    /// Any number; 0 is the most urgent.
    pub priority: u32,
    pub number: CcbId,
}
