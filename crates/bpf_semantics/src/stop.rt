// Where a run comes to the engine. It relies on `helpers` for the calls.

use helpers::Request;

/// A place at which a run comes to the engine.
#[derive(Clone, Copy, Debug, PartialEq, Eq)]
pub enum Stop {
    /// A helper call, with its argument.
    Helper(Request),
    /// The outermost exit, with R0.
    Exit(u64),
}
