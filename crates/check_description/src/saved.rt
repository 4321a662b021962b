// What is known of R6 to R9 of a function that waits for one that it called. It relies on `check_register_kinds`, also for
// the freezes of which they are copies.

use check_register_kinds::Kind;
use scalar_domain::Scalar;

/// What is known of one register of a function that waits for one that it called.
#[derive(Clone, Copy, Debug)]
pub struct SavedRegister {
    /// What it was at the call.
    pub kind: Kind,
    /// What a copy of a freeze is once that is held no more.
    pub copies: Scalar,
}

/// R6 to R9 of a function that waits.
#[derive(Clone, Copy, Debug)]
pub struct SavedRegisters {
    pub registers: [SavedRegister; 4],
}
