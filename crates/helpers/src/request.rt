// A helper call with its arguments, and its answer. It relies on `table` for the helpers, and on `base` for the bytes that a call
// names.

ghost use Rattle.std.specs.Prelude.{◌≡◌};
ghost use Rattle.helpers.specs.Table.{answer_number};

use crate::table::Helper;
use base::ShortBytes;

/// The arguments of a helper call, as they stand in R1, R2 and R3; 0 for one that the helper does not take.
#[derive(Clone, Copy, Debug, PartialEq, Eq)]
pub struct Arguments {
    pub first: u64,
    pub second: u64,
    pub third: u64,
}

/// A call of a helper.
#[derive(Clone, Copy, Debug, PartialEq, Eq)]
pub struct Request {
    /// The helper that is called.
    pub helper: Helper,
    /// The arguments, as whole 64-bit values.
    pub arguments: Arguments,
    /// The bytes that the arguments name, of a helper that tells them to the history, 1 to 64; none of others.
    pub bytes: ShortBytes,
}

/// Bytes that a helper call wrote.
#[derive(Clone, Copy, Debug, PartialEq, Eq)]
pub struct Written {
    /// The address of the first of them.
    pub address: u64,
    /// The bytes, in the order of their addresses.
    pub bytes: [u8; 16],
}

/// What a helper call answers.
#[derive(Clone, Copy, Debug, PartialEq, Eq)]
pub struct Answer {
    /// What R0 gets.
    pub r0: u64,
    /// What the call wrote, which is asked of helpers alone that write to their run's memory.
    pub written: Option<Written>,
}

impl Answer {
    /// A number alone.
    pub fn number(r0: u64) -> Self
        ensures { result ≡ answer_number r0 }
    {
        Answer { r0, written: None }
    }
}
