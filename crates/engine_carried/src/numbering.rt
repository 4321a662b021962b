// How the numbers go on in an engine that follows another one.

/// Under which numbers the CCBs, freezes and runs of an engine go on that follows another one.
#[derive(Clone, Copy, Debug, PartialEq, Eq)]
pub enum Numbering {
    /// The old ones: the next number of each kind is the one after the greatest that the engine before gave.
    Same,
    /// Fresh ones: the live CCBs are numbered 1, 2, 3 and so on in the order of their old numbers, the freezes likewise, and runs begin
    /// at 1.
    Fresh,
}
