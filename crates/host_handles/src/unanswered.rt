// Why a call was not answered. It relies on nothing.

/// Why a call was not answered. It is not recorded then, and what was held is held still.
#[derive(Clone, Copy, Debug, PartialEq, Eq)]
pub enum Unanswered {
    /// Nobody was asked: the run or the token of that number is not held, or no device reports such a completion.
    NotHeld,
    /// C4 or C6: the run is not out, or the token is no guest's.
    NotAdmitted,
    /// Memory was refused.
    OutOfMemory,
}
