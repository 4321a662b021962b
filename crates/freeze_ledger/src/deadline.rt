// When one timer lets its freeze go.

/// When a timer lets a freeze go, in milliseconds, the number of the freeze, and the key under which its entry stands. What is
/// due earlier goes first, and of two that are due at one time that of the lower number.
#[derive(Clone, Copy, PartialEq, Eq, PartialOrd, Ord)]
pub(crate) struct Deadline {
    pub(crate) due: u64,
    pub(crate) number: u32,
    pub(crate) key: usize,
}
