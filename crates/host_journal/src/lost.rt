// What ends the order of writes. It relies on nothing.

/// Why nothing goes out any more.
#[derive(Clone, Copy, Debug, PartialEq, Eq)]
pub enum Lost {
    /// The segment cannot be appended to, or not be synced.
    Segment,
    /// Standard output cannot be written.
    Output,
    OutOfMemory,
    /// An answer would stand within a line, which cannot be.
    InternalError,
}
