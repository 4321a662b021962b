// The history: what was handed on, and what is kept. It relies on `forgotten` for the former.

ghost use Rattle.std.specs.Prelude.{◌≡◌, ◌+◌, ◌<◌, ◌≤◌, ◌++◌, ◌∷◌, [], drop, length, min, IfOk, IsOk, OnErr, OnOk};
ghost use Rattle.engine_history.specs.HistoryState.{no_records};

use crate::forgotten::Forgotten;
use base_chunked_list::{CHUNK, ChunkedList};
use std::alloc::{AllocError, Global};
use std::marker::Model;
use world_calls::Record;

/// How many records a history may have, with those that were handed on: 2^63.
pub const MOST_RECORDS: u64 = 1 << 63;

/// The records of an engine's calls, in their order. It keeps those that were not handed on yet. Contracts see all of them, how many
/// were handed on, and how many there may be before more memory is taken.
#[derive(Drop)]
pub struct EngineHistory {
    forgotten: Forgotten,
    // how many were handed on
    taken: u64,
    // the others
    kept: ChunkedList<Record>,
}

impl Model for EngineHistory {
    ghost use Rattle.engine_history.specs.HistoryState.{HistoryState};

    ghost Value = { HistoryState };

    ghost use Rattle.std.specs.Prelude.{◌+◌, ◌++◌, min};
    ghost use Rattle.engine_history.specs.declared.history.TheConstants.{MOST_RECORDS};
    ghost use Rattle.engine_history.specs.Kept.{KeepsRecords};

    ghost view = { λ h. record { records = h.forgotten.records ++ h.kept.items; taken = h.taken; capacity = min (h.taken + h.kept.capacity) MOST_RECORDS } };

    ghost invariant = { λ h. KeepsRecords h.forgotten.records h.taken h.kept.items };
}

impl EngineHistory {
    /// No record, and room for CHUNK.
    pub fn with_room(alloc: Global) -> Result<Self, AllocError>
        ensures { IfOk result (λ history. history ≡ no_records CHUNK) }
    {
        Ok(EngineHistory {
            forgotten: Forgotten::none(),
            taken: 0,
            kept: ChunkedList::with_room(alloc)?,
        })
    }

    /// How many records there are, with those that were handed on.
    pub fn len(&self) -> u64
        ensures { result ≡ length self.now.records }
    {
        self.taken + self.kept.len() as u64
    }

    /// How many were handed on.
    pub fn taken(&self) -> u64
        ensures count { result ≡ self.now.taken }
        ensures within { self.now.taken ≤ length self.now.records }
    {
        self.taken
    }

    /// Those that were not handed on.
    pub fn kept(&self) -> &ChunkedList<Record>
        ensures { result.now.items ≡ drop self.now.taken self.now.records }
    {
        &self.kept
    }

    /// Those that were not handed on. Of the others nothing is known then.
    pub fn into_kept(self) -> ChunkedList<Record>
        ensures { result.items ≡ drop self.taken self.records }
    {
        let EngineHistory {
            forgotten: _,
            taken: _,
            kept,
        } = self;
        kept
    }

    /// Where its memory comes from.
    pub fn allocator(&self) -> &Global {
        self.kept.allocator()
    }

    /// Makes room for so many records more, CHUNK at most. Where memory is refused nothing changes. It fails too, as if memory were
    /// refused, where there would be more than MOST_RECORDS.
    pub fn reserve(&mut self, more: usize) -> Result<(), AllocError>
        requires { more ≤ CHUNK }
        ensures records { self.new.records ≡ self.old.records }
        ensures taken { self.new.taken ≡ self.old.taken }
        ensures room { OnOk result (length self.new.records + more ≤ self.new.capacity) }
        ensures kept { self.old.capacity ≤ self.new.capacity }
        ensures had_room { length self.old.records + more ≤ self.old.capacity → IsOk result × (self.new ≡ self.old) }
        ensures refused { OnErr result (self.new ≡ self.old) }
    {
        if MOST_RECORDS - self.len() < more as u64 {
            return Err(AllocError);
        }
        self.kept.reserve(more)
    }

    /// One record more, for which there is room. It takes no memory.
    pub fn push_reserved(&mut self, told: Record)
        requires { length self.old.records < self.old.capacity }
        ensures records { self.new.records ≡ self.old.records ++ told ∷ [] }
        ensures taken { self.new.taken ≡ self.old.taken }
        ensures capacity { self.new.capacity ≡ self.old.capacity }
    {
        self.kept.push_reserved(told);
    }

    /// So many more were handed on: they are the first of those that are kept, which memory needs no more.
    pub fn hand_on(&mut self, count: usize)
        requires { self.old.taken + count ≤ length self.old.records }
        ensures records { self.new.records ≡ self.old.records }
        ensures taken { self.new.taken ≡ self.old.taken + count }
        ensures capacity { self.old.capacity ≤ self.new.capacity }
    {
        self.forgotten = self.forgotten.and_first(&self.kept, count);
        self.kept.forget_first(count);
        self.taken += count as u64;
    }
}
