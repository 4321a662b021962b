// What is told of a run that was started. It relies on nothing.

/// A run that was started.
#[derive(Clone, Copy, Debug, PartialEq, Eq)]
pub struct Started {
    /// Its number, from 1.
    pub run: u32,
    /// The number of the freeze that it holds, or 0 where it got none.
    pub freeze: u32,
}
