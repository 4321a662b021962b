// How much a run has at a time. It relies on nothing.

/// The most freezes that a run holds at a time.
pub const MAX_HELD: usize = 8;
