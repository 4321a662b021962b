// When timers let their freezes go: an index of which the first is read at once. It is a heap of std's.

ghost use Rattle.std.specs.Prelude.{◌≡◌, ◌<◌, ◌≤◌, [], ◌∷◌, ◌↔◌, ◌==◌, ℕ, length, count_by, All, Contains, IfOk, IfSome, IsNone, IfNone, IsPermutation, ◌≢◌, slice_index_or};
ghost use Rattle.std.specs.declared.cmp.Reverse.{Reverse as Turned};
ghost use Rattle.freeze_ledger.specs.declared.ledger.TheConstants.{MAX_FREEZES};
ghost use Rattle.freeze_ledger.specs.Index.{under, IsNoLater, turned};

use crate::deadline::Deadline;
use crate::ledger::MAX_FREEZES;
use std::alloc::{AllocError, Global};
use std::cmp::Reverse;
use std::collections::BinaryHeap;
use std::marker::Model;

/// Deadlines, with room for 1024: no later call takes memory. Contracts see them as a list in no order.
#[derive(Drop)]
pub(crate) struct Deadlines {
    heap: BinaryHeap<Reverse<Deadline>>,
}

impl Model for Deadlines {
    ghost use Rattle.std.specs.Prelude.{List, ◌≤◌};
    ghost use Rattle.std.specs.BinaryHeap.{heap_items, heap_capacity, IsHeap};
    ghost use Rattle.std.specs.declared.cmp.Reverse.{Reverse as Turned};
    ghost use Rattle.freeze_ledger.specs.declared.deadline.Deadline.{Deadline as It};
    ghost use Rattle.freeze_ledger.specs.declared.ledger.TheConstants.{MAX_FREEZES};
    ghost use Rattle.freeze_ledger.specs.Index.{sooner};

    ghost Value = { List (Turned It) };

    ghost view = { λ d. heap_items d.heap };

    ghost invariant = { λ d. IsHeap sooner (heap_items d.heap) × (MAX_FREEZES ≤ heap_capacity d.heap) };
}

impl Deadlines {
    /// None, with room for 1024.
    pub(crate) fn with_room(alloc: Global) -> Result<Self, AllocError>
        ensures { IfOk result (λ deadlines. deadlines ≡ []) }
    {
        let heap = BinaryHeap::with_capacity(alloc, MAX_FREEZES)?;
        Ok(Deadlines { heap })
    }

    /// The one that goes first: of the least time, and among these of the lowest number. `None` exactly where there is none.
    pub(crate) fn first(&self) -> Option<Deadline>
        ensures front { IfSome result (λ first. (0 < length self.now) × (slice_index_or self.now 0 (turned first) ≡ turned first)) }
        ensures first { IfSome result (λ first. All (IsNoLater first) self.now) }
        ensures none { IsNone result ↔ (self.now ≡ []) }
    {
        match self.heap.peek() {
            Some(first) => Some(first.0),
            None => None,
        }
    }

    /// One more. There is room, so that the heap takes no memory.
    pub(crate) fn insert(&mut self, deadline: Deadline)
        requires { length self.old < MAX_FREEZES }
        ensures { IsPermutation (turned deadline ∷ self.old) self.new }
    {
        let _room = self.heap.push(Reverse(deadline));
    }

    /// That of the freeze of this number. The first is found at once, any other by a search.
    pub(crate) fn of(&self, number: u32) -> Option<Deadline>
        ensures there { IfSome result (λ found. Contains self.now (turned found)) }
        ensures number { IfSome result (λ found. found.number ≡ number) }
        ensures none { IfNone result (All (λ it. it.0.number ≢ number) self.now) }
    {
        match self.first() {
            Some(first) if first.number == number => Some(first),
            Some(_) | None => searched(self.heap.as_slice(), number),
        }
    }

    /// One fewer. It asks for one that is there, and for no other of its key. The first leaves the heap by itself; any other
    /// leaves by a walk through all, which only a token needs that was taken for a timer.
    pub(crate) fn remove(&mut self, deadline: Deadline)
        requires there { Contains self.old (turned deadline) }
        requires alone { count_by (under deadline.key) self.old ≡ 1 }
        ensures { IsPermutation (turned deadline ∷ self.new) self.old }
    {
        let key = deadline.key;
        match self.first() {
            Some(first) if first.key == key => {
                let _first = self.heap.pop();
            }
            Some(_) | None => self.heap.retain(move |kept| kept.0.key != key),
        }
    }
}

// The deadline of the freeze of this number.
fn searched(deadlines: &[Reverse<Deadline>], number: u32) -> Option<Deadline>
    ensures there { IfSome result (λ found. Contains deadlines.now (turned found)) }
    ensures number { IfSome result (λ found. found.number ≡ number) }
    ensures none { IfNone result (All (λ it. it.0.number ≢ number) deadlines.now) }
{
    let place = deadlines.iter().position(|it| it.0.number == number)?;
    Some(deadlines[place].0)
}
