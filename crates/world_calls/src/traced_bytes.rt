// The bytes of a trace call as the history keeps them. It relies on `base` for the place in which they stand.

ghost use Rattle.std.specs.Prelude.{◌≡◌, IfOk};

use base::ShortBytes;
use std::alloc::{AllocError, Global};
use std::marker::Model;

/// What one trace call put into the history, at most 64 bytes. They stand apart, so that a record without them is small.
/// Contracts see the list of them.
#[derive(Debug, Drop)]
pub struct TracedBytes {
    bytes: Box<ShortBytes>,
}

impl Model for TracedBytes {
    ghost use Rattle.std.specs.Prelude.{List, ℕ};

    ghost Value = { List ℕ };

    ghost view = { λ traced. traced.bytes.value };
}

impl TracedBytes {
    /// These bytes.
    pub fn new(alloc: Global, bytes: ShortBytes) -> Result<Self, AllocError>
        ensures { IfOk result (λ traced. traced ≡ bytes) }
    {
        Ok(TracedBytes {
            bytes: Box::new(alloc, bytes)?,
        })
    }

    /// The bytes, in the order of their addresses.
    pub fn as_slice(&self) -> &[u8]
        ensures { result.now ≡ self.now }
    {
        self.bytes.as_slice()
    }
}
