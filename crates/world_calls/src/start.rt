// What a queue reports of a CCB that it starts.

use ccb::CcbId;

/// A CCB that was started.
#[derive(Clone, Copy, Debug, PartialEq, Eq)]
pub struct Start {
    /// Its number, from 1.
    pub ccb: CcbId,
    /// What its policy advised the host to do before this start, or 0.
    pub advice: u32,
}
