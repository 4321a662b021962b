// Where a worker can be held up before its run comes to the engine. It relies on nothing.
use std::sync::Wait;

/// What is asked before each stop of a run, outside the engine's lock. A test holds runs up in it.
pub trait Gate {
    /// The run of that number has executed what is private to it, and is about to present its helper call or its exit: the
    /// stop of this number in its life, from 1.
    fn before<R: Wait>(&self, rt: &R, run: u32, ordinal: u32);

    /// Whether it holds nobody up. Then it need not be asked, and a short run may be driven in one section under the lock.
    fn is_open(&self) -> bool {
        false
    }
}

/// Holds nobody up.
#[derive(Clone, Copy, Debug)]
pub struct Open;

impl Gate for Open {
    fn before<R: Wait>(&self, _rt: &R, _run: u32, _ordinal: u32) {}

    fn is_open(&self) -> bool {
        true
    }
}
