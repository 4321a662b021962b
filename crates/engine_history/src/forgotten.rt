// The records that were handed on, which memory has no more: only proofs see them. It relies on nothing.

ghost use Rattle.std.specs.Prelude.{◌≡◌, ◌++◌, [], List, take};
ghost use Rattle.world_calls.specs.declared.record.Record.{Record as TheRecord};

use base_chunked_list::ChunkedList;
use std::marker::Model;
use world_calls::Record;

/// The records, in their order. It takes no bytes.
#[derive(Drop)]
pub(crate) struct Forgotten {
    ghost records: { List TheRecord },
}

impl Model for Forgotten {
    ghost use base.Fml.{ftrue};

    ghost also_owns = { λ _. ftrue };
}

// It owns nothing.
unsafe impl Send for Forgotten {}

impl Forgotten {
    /// None yet.
    pub(crate) fn none() -> Self
        ensures { result.records ≡ [] }
    {
        Forgotten {}
    }

    /// With the first so many of what is kept.
    pub(crate) fn and_first(&self, kept: &ChunkedList<Record>, count: usize) -> Self
        ensures { result.records ≡ self.now.records ++ take count kept.now.items }
    {
        Forgotten {}
    }
}
