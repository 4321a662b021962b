// At most 64 bytes, as sense bytes or the bytes that a policy puts into the history, in a place of fixed size: keeping
// and copying them takes no memory. It relies on `padded_list` for how they are kept.
ghost use Rattle.std.specs.Prelude.{◌≡◌, ◌≤◌, ◌↔◌, [], length, IsTrue, SomeIff};
ghost use Rattle.base.specs.ShortBytes.{padded_bytes};

use crate::padded_list::PaddedList;
use std::marker::Model;

/// The most bytes that are kept.
pub const MAX_BYTES: usize = 64;

/// From 0 to 64 bytes. Contracts see the list of them.
#[derive(Clone, Copy, Debug, PartialEq, Eq)]
pub struct ShortBytes {
    bytes: PaddedList<u8, MAX_BYTES>,
}

impl Model for ShortBytes {
    ghost use Rattle.std.specs.Prelude.{ℕ, List};

    ghost Value = { List ℕ };

    ghost view = { λ s. s.bytes };

    ghost inverse = { λ bytes. record { bytes = bytes } };
}

impl ShortBytes {
    /// A copy of these bytes. `None` where there are more than 64.
    pub fn new(bytes: &[u8]) -> Option<Self>
        ensures { SomeIff result (length bytes.now ≤ MAX_BYTES) bytes.now }
    {
        if bytes.len() > MAX_BYTES {
            return None;
        }
        Some(ShortBytes {
            bytes: PaddedList::copied(bytes),
        })
    }

    /// No bytes.
    pub fn none() -> Self
        ensures { result ≡ [] }
    {
        ShortBytes {
            bytes: PaddedList::none(),
        }
    }

    /// The bytes, from 0 to 64 of them.
    pub fn as_slice(&self) -> &[u8]
        ensures value { result.now ≡ self.now }
        ensures few { length self.now ≤ MAX_BYTES }
    {
        self.bytes.as_slice()
    }

    /// Whether there are none.
    pub fn is_empty(&self) -> bool
        ensures { IsTrue result ↔ (self.now ≡ []) }
    {
        self.bytes.is_empty()
    }

    /// The bytes, padded with zeros to 64.
    pub fn padded(&self) -> &[u8; MAX_BYTES]
        ensures { result.now ≡ padded_bytes self.now }
    {
        self.bytes.padded()
    }
}
