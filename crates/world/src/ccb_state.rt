// Where a live CCB is. The world's definition and the table of CCBs share it.

/// Where a CCB is that is not finished.
#[derive(Clone, Copy, Debug, PartialEq, Eq)]
pub enum CcbState {
    /// It waits for its start.
    Waiting,
    /// A device works on it.
    Active,
    /// Its completion failed, and a run decides what becomes of it.
    InRecovery,
}
